// The combinatorics that the placing layer rests on, over functions: see specs/. No code.
#![tactic(auto)]
