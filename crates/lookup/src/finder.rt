// Looking a tank up.
ghost use Rattle.std.specs.Prelude.{◌≡◌, ◌+◌, unwrap_or};
ghost use Rattle.common.specs.Lists.{part};
ghost use Rattle.lookup.specs.LookUp.{look_up, place_of, byte_from};
ghost use Rattle.lookup.specs.Parts.{nowhere};

use crate::Part;
use line::layout::LINE;

// Where the lines of a tank are in the sheet; nothing where the sheet is refused or has no such tank.
fn lines_of(b: &[u8], tank: u32) -> Option<Part>
    ensures { unwrap_or result nowhere ≡ place_of b.now tank }
{
    sheet::read_sheet(b).ok()?;
    let lines = b.len() / LINE;
    let first = (1..lines).find(|i| line::field_number(b, LINE * *i) == tank)?;
    // tanks never fall from line to line: the lines of this one follow each other
    let after = (first..lines)
        .find(|i| line::field_number(b, LINE * *i) != tank)
        .unwrap_or(lines);
    Some(Part {
        start: LINE * first,
        length: LINE * (after - first),
    })
}

// Where the lines of a tank are in the sheet: a part that is empty where the sheet is refused or has no such tank.
pub fn place(b: &[u8], tank: u32) -> Part
    ensures value { result ≡ place_of b.now tank }
    ensures b_value { part result.start (result.start + result.length) b.now ≡ look_up b.now tank }
{
    lines_of(b, tank).unwrap_or_default()
}

// All lines of a tank, as one part of the sheet itself; empty where the sheet is refused or has no such tank. The part
// is the sheet's own bytes, from the start that `place_of` gives on, an empty part too. Its bytes alone don't say where
// it is, because the head line may be the same as the tank's line; `ptr` is where a slice begins in memory.
pub fn find(b: &[u8], tank: u32) -> &[u8]
    ensures result_value { result.now ≡ look_up b.now tank }
    ensures ref_ptr_value { result.ref_ptr ≡ byte_from b.entry.ref_ptr (place_of b.now tank).start }
{
    let p = place(b, tank);
    let start = p.start;
    let end = start + p.length;
    &b[start..end]
}
