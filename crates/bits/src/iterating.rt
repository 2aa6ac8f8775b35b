// The set bits of a word, one after another.
ghost use Rattle.std.specs.Prelude.{◌≡◌};

use crate::{drop_bit, lowest};

// The set bits that are left of a word, lowest first.
#[derive(Clone, Copy)]
pub struct SetBits {
    rest: u64,
}

// The set bits of w, lowest first.
pub fn set_bits(w: u64) -> SetBits
    ensures { result.rest ≡ w }
{
    SetBits { rest: w }
}

impl Iterator for SetBits {
    ghost use Rattle.std.specs.Iterator.{at_most};
    ghost use Rattle.bits.specs.NextBit.{NextBit};

    type Item = u32;

    ghost next_gives = { NextBit };

    ghost remaining = { λ s. at_most s.rest };

    fn next(&mut self) -> Option<u32> {
        if self.rest == 0 {
            return None;
        }
        let j = lowest(self.rest);
        self.rest = drop_bit(self.rest, j);
        Some(j)
    }
}
