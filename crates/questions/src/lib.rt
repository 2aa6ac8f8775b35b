// An outsider's questions about a sheet: the shortfall of a set of its slots, and whether a sound placing exists
// under a low and a high for each slot.
//
// What each answers to a sheet, whatever checks were made of it, and to a sheet's bytes is stated in
// specs/Calls.antt, over the definitions of `schedules`; nothing here knows how a placing is held.
#![tactic(auto)]

mod question;
mod shortfalls;

pub use question::bounds;
pub use shortfalls::shortfall;

// for the layers above: they take what was read, and `shortfall_on` an accepted sheet
pub use question::bounds_of;
pub use shortfalls::{shortfall_of, shortfall_on};

// What `shortfall` answers: forced minus capacity, below zero where capacity is spare; 0 on a refusal. A number with
// the value beside it, since C reads it (`kiwimound_shortfall`).
#[repr(C)]
#[derive(Clone, Copy)]
pub struct ShortfallAnswer {
    pub number: u32,
    pub line: u32,
    pub shortfall: i32,
}

// What `bounds` answers: whether a sound placing exists; no on a refusal. C reads it too (`kiwimound_bounds`).
#[repr(C)]
#[derive(Clone, Copy)]
pub struct BoundsAnswer {
    pub number: u32,
    pub line: u32,
    pub yes: bool,
}
