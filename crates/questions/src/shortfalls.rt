// The shortfall of a set of slots: what is forced into it, less its capacity.
ghost use Rattle.std.specs.Prelude.{◌≡◌, ◌-◌, ◌*◌, ◌≤◌};
ghost use Rattle.std.proofs.Math.IntN.{sub_ℕ};
ghost use Rattle.checks.specs.Limits.{max_slots, max_blowers, max_rations};
ghost use Rattle.sheet.specs.FeedSheets.{sheet_reading, as_reading};
ghost use Rattle.questions.specs.Calls.{shortfall_of};
ghost use Rattle.marks.specs.Counts.{unmarked_in};
ghost use Rattle.questions.specs.ShortfallParts.{forced_by, CanForce, as_shortfall, ReadShortfall};
ghost use Rattle.marks.specs.Parts.{CanCount};

use crate::ShortfallAnswer;
use checks::{Fault, Refusal};
use sheet::FeedSheet;

// What one ration is forced to take: the larger of 0 and its volume less the slots of its window that are not marked.
// `before` has the marks counted from slot 1 on.
fn forced_of(before: &[u32; 97], release: u32, deadline: u32, volume: u32) -> u32
    requires { CanCount before.now release deadline }
    ensures { result ≡ volume - unmarked_in before.now release deadline }
{
    volume.saturating_sub(marks::unmarked_in(before, release, deadline))
}

// forced(Q): the sum over n rations. Two counts for each, however long its window is.
fn forced(before: &[u32; 97], n: usize, numbers: &[u32; 256]) -> u32
    requires { CanForce before.now n numbers.now }
    ensures { result ≡ forced_by before.now n numbers.now }
{
    let mut sum = 0;
    for j in 0..n {
        let at = 4 * j;
        sum += forced_of(before, numbers[at + 1], numbers[at + 2], numbers[at + 3]);
    }
    sum
}

// a − b, of numbers that a shortfall is made of.
fn difference(a: u32, b: u32) -> i32
    requires { (a ≤ max_rations * max_slots) × (b ≤ max_slots * max_blowers) }
    ensures { result ≡ sub_ℕ a b }
{
    a as i32 - b as i32
}

// The shortfall of the marked slots of the day of an accepted sheet, high being the blowers in every slot: forced minus
// capacity.
pub fn shortfall_on(sheet: &FeedSheet, marks: &[u8]) -> Result<i32, Refusal>
    ensures { ReadShortfall (sheet_reading sheet.now) marks.now (as_shortfall result) }
{
    let slots = sheet.slots as usize;
    if marks::is_faulty(slots, marks) {
        return Err(Fault::List.on(0));
    }
    let before = marks::counts_before(marks);
    let forced = forced(&before, sheet.rations as usize, &sheet.numbers);
    // |Q| × m: the last count is that of the whole day.
    let capacity = before[slots] * sheet.blowers;
    Ok(difference(forced, capacity))
}

// A shortfall has number 0, a refusal its number and line and 0.
impl From<Result<i32, Refusal>> for ShortfallAnswer {
    ghost from_gives = { λ shortfall answer. answer ≡ as_shortfall shortfall };

    fn from(shortfall: Result<i32, Refusal>) -> ShortfallAnswer {
        match shortfall {
            Ok(shortfall) => ShortfallAnswer {
                number: 0,
                line: 0,
                shortfall,
            },
            Err(refusal) => ShortfallAnswer {
                number: refusal.number,
                line: refusal.line,
                shortfall: 0,
            },
        }
    }
}

// The same of a sheet that was read.
fn read_shortfall(sheet: Result<FeedSheet, Refusal>, marks: &[u8]) -> Result<i32, Refusal>
    ensures { ReadShortfall (as_reading sheet) marks.now (as_shortfall result) }
{
    shortfall_on(&sheet?, marks)
}

// The same as an answer: number 0 and the shortfall; or the number and the line of the first refusal and 0.
pub fn shortfall_of(sheet: Result<FeedSheet, Refusal>, marks: &[u8]) -> ShortfallAnswer
    ensures { ReadShortfall (as_reading sheet) marks.now result }
{
    ShortfallAnswer::from(read_shortfall(sheet, marks))
}

// The shortfall of the marked slots of a sheet's day, from its bytes. Nothing lent is changed.
pub fn shortfall(b: &[u8], marks: &[u8]) -> ShortfallAnswer
    ensures { result ≡ shortfall_of b.now marks.now }
{
    shortfall_of(sheet::read_sheet(b), marks)
}
