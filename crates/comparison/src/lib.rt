// The comparison of two sheets, for outsiders: which of their plans comes first. What it answers is stated in
// specs/Comparison.antt.
#![tactic(auto)]

mod comparing;

pub use comparing::compare;

// What a comparison answers: `order` is 0 (no) on a refusal, otherwise 1 (same), 2 (before) or 3 (after). C reads it
// (`kiwimound_compare`).
#[repr(C)]
#[derive(Clone, Copy)]
pub struct Compared {
    pub number: u32,
    pub line: u32,
    pub order: u32,
}
