// The stretches that end before the day's last slot, listed with their causes as the method settles them (request 105).
//
// The method goes from the last blower down to the first, and each blower from slot 1 on: that is the order of the
// listing, so each entry is written when its stretch ends. Whether a blower can go on as it is, is asked of `placing`,
// which says why where it can't; it then changes over by `stretches::keep`, the step by which a plan is settled. For
// the layer above: the functions ask for rations in range.
#![tactic(auto)]

mod days;
mod settling;

use cause_lines::Extent;
pub use days::list_day;

// Where the method is with a blower: it is idle or busy since slot `first`; and the listing so far.
#[derive(Clone, Copy)]
pub struct Progress {
    pub busy: bool,
    pub first: usize,
    pub extent: Extent,
}
