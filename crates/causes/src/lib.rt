// Why each stretch of a sheet's plan ends where it does, for outsiders (request 105).
//
// What the call answers, and what it leaves in the buffer lent to it, is stated in specs/CauseCalls.antt. What is
// demanded of it is in the crate `demands`.
#![tactic(auto)]

mod calls;

pub use calls::list_causes;

// What the call answers: the length of the listing written, and whether it was cut; 0 and no on every refusal. C reads
// it (`kiwimound_causes`).
#[repr(C)]
#[derive(Clone, Copy)]
pub struct CausesAnswer {
    pub number: u32,
    pub line: u32,
    pub length: usize,
    pub cut: bool,
}
