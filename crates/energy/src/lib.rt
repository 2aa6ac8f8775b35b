// Energy: which stretches are off, the starts, and the energy of a day.
//
// An idle stretch is off at the ends of the day, and with at least q slots within it; a shorter one is on.
// `CountedDay` has a day's counts. Its `stretch_at` gives a blower's stretch at a slot, with its state, and its
// `stretches` goes over a blower's stretches, here and for the bill and the stretch lines. So a blower's slots are
// passed once: the on slots and the steps from off to on add up, and the energy is their number with q for each start.
#![tactic(auto)]

mod day;
mod iterating;
mod stretch;
mod usage;

pub use day::CountedDay;
pub use iterating::Stretches;
pub use stretch::{State, Stretch};
pub use usage::day_use;

// On slots and starts, of a blower or of all.
#[derive(Clone, Copy)]
pub struct BlowerUse {
    pub on: usize,
    pub starts: usize,
}

// The energy of a day, and the starts of all blowers.
#[derive(Clone, Copy)]
pub struct DayUse {
    pub energy: u32,
    pub starts: u32,
}
