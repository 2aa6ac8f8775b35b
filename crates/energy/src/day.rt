// A day of which the counts are known, and the stretch of a blower that begins at a place of it.
ghost use Rattle.std.specs.Prelude.{◌≤◌, length};

use crate::{State, Stretch, Stretches};

// The counts of a day's slots, and the wake cost q: what stretches, starts, energy and charge are found from.
#[derive(Clone, Copy)]
pub struct CountedDay<'a> {
    pub counts: &'a [u8],
    pub wake: u32,
    pub ghost in_day: { length counts.now ≤ 96 },
}

impl<'a> CountedDay<'a> {
    ghost use Rattle.std.specs.Prelude.{◌≡◌, ◌≤◌, ◌<◌, length};
    ghost use Rattle.method.specs.FrontRunLaws.{stretch};
    ghost use Rattle.energy.specs.Energy.{state, listed_for};
    ghost use Rattle.energy.specs.Listed.{number_of, listing_of};
    ghost use Rattle.energy.specs.Usage.{stretch_at};
    ghost use Rattle.energy.specs.Left.{left};

    // The state of a stretch. At the ends of the day an idle stretch is off at any length.
    fn state(&self, first: usize, last: usize, busy: bool) -> State
        requires { (first ≤ last) × (last ≤ 96) }
        ensures { number_of result ≡ state (length self.now.counts.now) self.now.wake (stretch first last busy) }
    {
        if busy {
            return State::Busy;
        }
        if first == 1 {
            return State::Off;
        }
        if last == self.counts.len() {
            return State::Off;
        }
        if self.wake as usize <= last + 1 - first {
            return State::Off;
        }
        State::Idle
    }

    // The stretch of a blower that begins in slot from + 1. It costs one pass over its slots.
    pub fn stretch_at(&self, blower: u32, from: usize) -> Stretch
        requires { from < length self.now.counts.now }
        ensures { listing_of result ≡ stretch_at self.now.wake self.now.counts.now (length self.now.counts.now) blower from }
    {
        let busy = stretches::is_busy(blower, self.counts[from]);
        let last = stretches::stretch_end(self.counts, blower, from);
        let state = self.state(from + 1, last, busy);
        Stretch {
            blower,
            first: from + 1,
            last,
            state,
        }
    }

    // The stretches of a blower, one after another.
    pub fn stretches(&self, blower: u32) -> Stretches<'a>
        ensures { left result ≡ listed_for self.now.wake self.now.counts.now blower }
    {
        Stretches {
            day: *self,
            blower,
            from: 0,
        }
    }
}
