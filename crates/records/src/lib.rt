// The calls for a caller who has the rations as a lent slice of records, not as a sheet's bytes.
//
// Each call takes the records apart into flat numbers, at most one more than a sheet may have, reads these as a sheet,
// and hands what was read to the function that the call on a sheet's bytes hands its own to. So it answers what that
// call answers to the sheet that these records make (specs/Records.antt); the checks 1 and 2, which are about a sheet's
// bytes, have nothing to look at.
//
// C callers reach these calls through `records_c`, which exports each again under its name: a library exports nothing.
#![tactic(auto)]

mod flats;
mod plans;
mod plans_both;
mod question;
mod readings;
mod shortfalls;
mod writing;

pub use plans::kiwimound_plan_rations;
pub use plans_both::kiwimound_plan_rations_both;
pub use question::kiwimound_bounds_rations;
pub use shortfalls::kiwimound_shortfall_rations;
pub use writing::kiwimound_write_rations;

// A ration: one line of a sheet. The layout is C's, so that a slice of rations can be lent from there.
#[repr(C)]
#[derive(Clone, Copy)]
pub struct Ration {
    pub tank: u32,
    pub first: u32,
    pub last: u32,
    pub volume: u32,
}

// The first rations of a slice as flat numbers, four for each, in its order. One more is taken than a sheet may have:
// it shows that there are too many. 0 past the last. An array with its count: memory is fixed here.
#[derive(Drop)]
struct Flat {
    pub count: usize,
    pub numbers: [u32; 260],
}
