// The calls for outsiders under their C names, for a program in C or Rust to link (`bindings/library kiwimound`, which
// runs `rt lib` here; include/kiwimound.h).
//
// Each forwards to the call of its layer, asks nothing of its caller and carries the same promise. A slice is a pointer
// and then a length.
#![tactic(auto)]

mod causing;
mod comparing;
mod hall_plans;
mod placings;
mod plans;
mod share_plans;
mod sheets;
mod version;
