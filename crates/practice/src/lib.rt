// Practice sheets: from a seed, a sheet to load a cabinet with before there are fish.
//
// `write_practice` draws the sheet's numbers one after another (specs/Practice.antt) and hands them to the writer.
// Whatever the seed is, the sheet passes every check of a sheet and is read back to the numbers drawn
// (specs/Theorems.antt). Whether it has a sound placing depends on the seed.
#![tactic(auto)]

mod draws;
mod product;
mod rations;
mod seeds;
pub mod sizes;

ghost use Rattle.std.specs.Prelude.{◌≡◌, length};
ghost use Rattle.sheet.specs.Calls.{written_of, buffer_after};
ghost use Rattle.practice.specs.Practice.{practice_sheet, practice_refusal};

use line::layout::FIELDS;
pub use seeds::seed_faulty;
use sheet::Written;

// Writes the sheet of a seed: number 0 and its length, and its bytes at the front of out; or number 10 where out is too
// short for them, and out as it was. Bytes of out after the sheet keep their values.
pub fn write_practice(seed: u32, out: &mut [u8]) -> Written
    ensures value { result ≡ written_of (practice_refusal seed (length out.old)) (practice_sheet seed) }
    ensures out_bytes { out.new ≡ buffer_after (practice_refusal seed (length out.old)) (practice_sheet seed) out.old }
{
    let mut s = seed;
    let blowers = 1 + draws::draw(&mut s) % 8;
    let wake = draws::draw(&mut s) % 201;
    let rations = draws::draw(&mut s) % 65;
    let n = rations as usize;
    let numbers = rations::ration_numbers(s, n);
    sheet::write(96, blowers, wake, rations, &numbers[0..FIELDS * n], out)
}
