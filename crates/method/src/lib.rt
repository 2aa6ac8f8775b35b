// Parallel Left-to-Right, as document 01 has it: how the stretches of the blowers are settled, and which placing with
// the counts is taken. The main facts are in specs/Theorems and specs/FeedingLaws. No code.
#![tactic(auto)]
