// The grid of feedings in words, and the search that moves feedings along a chain to a slot with room.
//
// Two words a slot, bit k for ration k: `fed` has the rations fed in the slot, `rest` those that may be fed in it and
// are not. Slot x has an edge to slot y where `fed[x] & rest[y]` is not 0: a ration that is fed in x could be fed in y
// instead. Moving it keeps every volume, takes one from x and gives one to y.
#![tactic(auto)]

pub mod search;

// The slots of a grid. A shorter day leaves the last words 0.
pub const SLOTS: usize = 96;
