// The calls of `sheet`, `practice` and `lookup`. A look-up answers where the lines are, because a part of a slice can't
// be handed over to C.
ghost use Rattle.std.specs.Prelude.{◌≡◌, ◌+◌, length};
ghost use Rattle.common.specs.Lists.{part};
ghost use Rattle.sheet.specs.Calls.{reading_of, write_refusal, written_of, buffer_after};
ghost use Rattle.checks.specs.Sheet.{sheet_from};
ghost use Rattle.practice.specs.Practice.{practice_sheet, practice_refusal};
ghost use Rattle.lookup.specs.LookUp.{look_up, place_of};

use lookup::Part;
use sheet::{Reading, Written};

// Reads the bytes of a sheet.
#[unsafe(no_mangle)]
pub extern "C" fn kiwimound_read(b: &[u8]) -> Reading
    ensures { result ≡ reading_of b.now }
{
    sheet::read(b)
}

// Writes a sheet from its head line's numbers and the flat numbers of its rations.
#[unsafe(no_mangle)]
pub extern "C" fn kiwimound_write(
    slots: u32,
    blowers: u32,
    wake: u32,
    rations: u32,
    numbers: &[u32],
    out: &mut [u8],
) -> Written
    ensures value { result ≡ written_of (write_refusal (sheet_from slots blowers wake numbers.now) rations numbers.now (length out.old))
        (sheet_from slots blowers wake numbers.now) }
    ensures out_bytes { out.new ≡ buffer_after (write_refusal (sheet_from slots blowers wake numbers.now) rations numbers.now (length out.old))
        (sheet_from slots blowers wake numbers.now) out.old }
{
    sheet::write(slots, blowers, wake, rations, numbers, out)
}

// Writes the practice sheet of a seed.
#[unsafe(no_mangle)]
pub extern "C" fn kiwimound_practice(seed: u32, out: &mut [u8]) -> Written
    ensures value { result ≡ written_of (practice_refusal seed (length out.old)) (practice_sheet seed) }
    ensures out_bytes { out.new ≡ buffer_after (practice_refusal seed (length out.old)) (practice_sheet seed) out.old }
{
    practice::write_practice(seed, out)
}

// Where the lines of a tank are in the sheet: a part that is empty where the sheet is refused or has no such tank.
#[unsafe(no_mangle)]
pub extern "C" fn kiwimound_find(b: &[u8], tank: u32) -> Part
    ensures value { result ≡ place_of b.now tank }
    ensures b_value { part result.start (result.start + result.length) b.now ≡ look_up b.now tank }
{
    lookup::place(b, tank)
}
