// Placings of demands in the slots of a day, as lists: what a sound placing is, whether one exists, and which slots
// show why there is none. The main facts are in specs/Theorems. No code.
#![tactic(auto)]
