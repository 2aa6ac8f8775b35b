// A draw from a seed.
ghost use Rattle.std.specs.Prelude.{◌≡◌, ◌/◌};
ghost use Rattle.practice.specs.Practice.{next_seed};

use crate::product;

const MULTIPLIER: u32 = 1664525;

const INCREMENT: u32 = 1013904223;

// Sets the seed to the next one, and yields that divided by 65,536.
pub fn draw(seed: &mut u32) -> u32
    ensures value { result ≡ next_seed seed.old / 65536 }
    ensures seed_drawn { seed.new ≡ next_seed seed.old }
{
    let s = *seed;
    let next = std::num::wrapping_add_u32(product::wrapping_product(MULTIPLIER, s), INCREMENT);
    *seed = next;
    next / 65536
}
