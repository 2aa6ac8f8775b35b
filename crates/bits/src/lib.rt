// A word's bits: the lowest, one more, one less, one moved to another word, whether it has one, and all set ones from
// the lowest on. What a bit is stands in common/specs/Bits.antt.
#![tactic(auto)]

ghost use Rattle.std.specs.Prelude.{◌≡◌, ◌≢◌, ◌+◌, ◌-◌, ◌^◌, ◌<◌, eqb};
ghost use Rattle.common.specs.Bits.{bit};
ghost use Rattle.bits.specs.Lowest.{Lowest};

mod iterating;

pub use iterating::{SetBits, set_bits};

// The index of the lowest bit of w.
pub fn lowest(w: u64) -> u32
    requires { w ≢ 0 }
    ensures { Lowest w result }
{
    w.trailing_zeros()
}

// w with the bit j set.
pub fn add_bit(w: u64, j: u32) -> u64
    requires { (j < 64) × (bit w j ≡ 0) }
    ensures { result ≡ w + 2 ^ j }
{
    w + (1u64 << j)
}

// w with the bit j cleared.
pub fn drop_bit(w: u64, j: u32) -> u64
    requires { (j < 64) × (bit w j ≡ 1) }
    ensures { result ≡ w - 2 ^ j }
{
    w - (1u64 << j)
}

// Moves the bit j from one word to the other.
pub fn move_bit(from: &mut u64, to: &mut u64, j: u32)
    requires { (j < 64) × (bit from.old j ≡ 1) × (bit to.old j ≡ 0) }
    ensures { (from.new ≡ from.old - 2 ^ j) × (to.new ≡ to.old + 2 ^ j) }
{
    *from = drop_bit(*from, j);
    *to = add_bit(*to, j);
}

// Whether w has the bit j.
pub fn has_bit(w: u64, j: u32) -> bool
    requires { j < 64 }
    ensures { result ≡ eqb (bit w j) 1 }
{
    (w >> j) % 2 == 1
}
