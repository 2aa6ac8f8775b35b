// Looking a tank up in a sheet.
//
// `find` hands back all lines of a tank as one part of the sheet itself, `place` says where that part is. Both give an
// empty part where the sheet is refused or has no such tank (specs/Theorems.antt).
#![tactic(auto)]

mod finder;

pub use finder::{find, place};

// Where a part of a sheet is: its first byte and its length.
#[repr(C)]
#[derive(Clone, Copy, Default)]
pub struct Part {
    pub start: usize,
    pub length: usize,
}
