// The lines of the causes' listing: an entry for each stretch that ends before the day's last slot (request 105).
//
// An entry has a line of blower, last slot, cause and number of slots, and a line for each slot. What the listing is,
// and where it is cut, is stated in specs/Entries.antt. For the layer above, which writes each entry when its stretch
// ends.
#![tactic(auto)]

mod entries;
mod slot_lines;

pub use entries::append;
use placing::Cause;

// A stretch that ends before the day's last slot: its blower, its ends and its cause. Of the idle stretch without slots
// `first` is 1 and `last` 0.
#[derive(Clone, Copy)]
pub struct CausedStretch {
    pub blower: u8,
    pub first: usize,
    pub last: usize,
    pub cause: Cause,
}

// The listing so far: its length, and whether an entry did not fit. A listing that is cut has a length too, and the C
// struct of the answer has both (`CausesAnswer` of the crate `causes`), so that `cut` is a flag and no Option.
#[derive(Clone, Copy)]
pub struct Extent {
    pub length: usize,
    pub cut: bool,
}

// The slots of a cause in two words: slot t + 1 is bit t of the first, or bit t − 64 of the second.
#[derive(Clone, Copy)]
pub struct SlotWords {
    pub first: u64,
    pub second: u64,
}
