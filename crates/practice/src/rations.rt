// The rations of a practice sheet, as flat numbers.
ghost use Rattle.std.specs.Prelude.{◌≡◌, ◌≤◌};
ghost use Rattle.checks.specs.Limits.{max_rations};
ghost use Rattle.checks.specs.Sheet.{job_numbers};
ghost use Rattle.practice.specs.Practice.{seed_after, drawn_job};
ghost use Rattle.practice.specs.Parts.{RationsFrom};

use crate::draws;
use line::layout::FIELDS;

// Draws the ration of a tank: its four numbers.
fn draw_ration(seed: &mut u32, tank: u32) -> [u32; FIELDS]
    ensures ration_drawn { result ≡ job_numbers (drawn_job seed.old tank) }
    ensures seed_drawn { seed.new ≡ seed_after seed.old 3 }
{
    let first = 1 + draws::draw(seed) % 96;
    let last = first + draws::draw(seed) % (97 - first);
    let volume = 1 + draws::draw(seed) % (last + 1 - first);
    [tank, first, last, volume]
}

// The numbers of n rations, for the tanks from 1 on, by the draws from a seed; 0 past them.
pub fn ration_numbers(seed: u32, n: usize) -> [u32; 256]
    requires { n ≤ max_rations }
    ensures { RationsFrom seed n result }
{
    let mut numbers = [0; 256];
    let mut s = seed;
    for i in 0..n {
        let ration = draw_ration(&mut s, i as u32 + 1);
        numbers[FIELDS * i..FIELDS * (i + 1)].copy_from_slice(&ration);
    }
    numbers
}
