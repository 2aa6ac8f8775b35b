// A seed as an input: one field, closed by byte 10.
ghost use Rattle.std.specs.Prelude.{◌≡◌};
ghost use Rattle.practice.specs.Practice.{faulty_seed};

use crate::sizes::MAX_SEED;
use line::layout::{NEWLINE, WIDTH};

// Whether an input is anything else than one field, which holds a number up to the greatest seed, closed by byte 10.
pub fn seed_faulty(b: &[u8]) -> bool
    ensures { result ≡ faulty_seed b.now }
{
    b.len() != WIDTH + 1
        || line::field_faulty(b, 0)
        || MAX_SEED < line::field_number(b, 0)
        || b[WIDTH] != NEWLINE
}
