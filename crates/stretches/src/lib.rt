// Stretches: which blowers are busy in which slot, by Parallel Left-to-Right, and which rations are fed there.
//
// `settle` takes the blowers from the last down to the first, and each from slot 1 on: idle as long as a sound
// placing exists, then busy as long as one exists, and so on. It asks crate `placing` one question for each slot, and
// a second one where the blower changes over. At the end every slot's low equals its high: that is its count. That
// one slot more at a time settles the longest runs of document 01 is a theorem (specs/Theorems.antt of `method`).
// Which rations are fed is chosen by crate `feedings`.
//
// `plan_words` plans any windows, volumes and highs, and `plan_day` a sheet's rations under any highs. For the layers
// above: the functions ask for words of some demands, or for rations and counts in range.
#![tactic(auto)]

mod days;
mod intervals;
mod planning;
mod settle;

pub use days::{busy_counts, fed_words};
pub use intervals::{is_busy, stretch_end};
pub use planning::{plan_day, plan_words};
pub use settle::keep;

// A day planned.
#[derive(Clone, Copy)]
pub struct DayPlan {
    // the count of each slot
    pub counts: [u8; 96],
    // the feedings: bit j of word t says that ration j + 1 is fed in slot t + 1
    pub fed: [u64; 96],
}

// A day held for want of blowers, with what shows why.
#[derive(Clone, Copy)]
pub struct HeldDay {
    // not 0 in the slots that it shows
    pub marks: [u8; 96],
    // the feedings forced into these slots
    pub forced: u32,
    // the sum of the highs over these slots
    pub capacity: u32,
}
