// A blower's stretches, one after another.
ghost use Rattle.std.specs.Prelude.{◌≤◌, length};

use crate::{CountedDay, Stretch};

// The stretches of a blower that begin after slot `from`.
#[derive(Clone, Copy)]
pub struct Stretches<'a> {
    pub(crate) day: CountedDay<'a>,
    pub(crate) blower: u32,
    pub(crate) from: usize,
    pub ghost in_day: { from ≤ length day.counts.now },
}

impl Iterator for Stretches<'_> {
    ghost use Rattle.std.specs.Iterator.{YieldsFirstBy, item_count};
    ghost use Rattle.energy.specs.Listed.{listing_of};
    ghost use Rattle.energy.specs.Left.{left};

    type Item = Stretch;

    ghost next_gives = { YieldsFirstBy listing_of left };

    ghost remaining = { item_count left };

    fn next(&mut self) -> Option<Stretch> {
        if self.from == self.day.counts.len() {
            return None;
        }
        let stretch = self.day.stretch_at(self.blower, self.from);
        self.from = stretch.last;
        Some(stretch)
    }
}
