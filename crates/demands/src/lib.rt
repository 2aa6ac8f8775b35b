// The three demands that the planner is held to, each one theorem over what the calls promise: specs/DemandOne,
// DemandTwo and DemandThree. No code.
#![tactic(auto)]
