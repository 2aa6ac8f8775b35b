// Definitions and laws that several layers share: see specs/. No code.
#![tactic(auto)]
