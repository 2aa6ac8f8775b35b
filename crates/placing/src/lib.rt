// Placing: whether a sound placing of a day's rations exists, and one if so.
//
// A sound placing gives each ration its volume of distinct slots of its window and keeps each slot between a low and a
// high. `begin` makes one or marks the slots that show why there is none, and `begin_again` does so for other volumes
// of the same windows, from the placing at hand; `idle` and `busy` set one slot's bound, or say that it can't be;
// `idle_or_cause` and `busy_or_cause` do the same and say why it can't. What a yes or no means is stated over the
// definitions of `schedules`; how `Words` hold a placing is known to this crate and to `feedings` alone.
//
// The public modules are for the layers above.
#![tactic(auto)]

mod begin;
mod causes;
pub mod feasibility;
pub mod held;
pub mod steps;
pub mod windows;

// Why no sound placing exists with a bound that was asked for. A set of slots is two words: bit t of the first says
// that slot t + 1 is in it, bit t of the second slot t + 65.
#[derive(Clone, Copy)]
pub enum Cause {
    // a low above a high: the slot
    LowAboveHigh(u32),
    // some shortfall above zero: the set contained in every set of greatest shortfall
    Shortfall(u64, u64),
    // some excess above zero: the set contained in every set of greatest excess
    Excess(u64, u64),
}

// Words that hold a placing of a day's rations under a low and a high for each slot. A layer above makes them, lends
// them from one question to the next, and reads no more of them than the definitions of specs/ say. The index is the
// slot, from 0; bit j of a word is for ration j, from 0. What they hold stands in the contracts and in no invariant:
// new words hold no placing, and those of a held day none that is sound.
#[derive(Drop)]
pub struct Words {
    // the rations that are fed in the slot
    pub fed: [u64; 96],
    // those with the slot in their windows that are not fed in it
    pub rest: [u64; 96],
    // the slot's high
    pub high: [u8; 96],
    // how many of the rations with the slot in their windows may rest in it: their number less the slot's low
    pub spare: [u8; 96],
    // the marks: not 0 where a search that failed shows why
    pub seen: [u8; 96],
}
