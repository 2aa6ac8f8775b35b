// The bounds question: whether a sound placing exists under a low and a high for each slot.
ghost use Rattle.std.specs.Prelude.{◌≡◌, ◌≤◌, ◌<◌, length, take};
ghost use Rattle.checks.specs.Limits.{max_slots, max_blowers};
ghost use Rattle.common.specs.Buffers.{padded};
ghost use Rattle.sheet.specs.FeedSheets.{as_reading};
ghost use Rattle.schedules.specs.Schedules.{at_most};
ghost use Rattle.questions.specs.Calls.{bounds_fault, cut_highs, bounds_of};
ghost use Rattle.questions.specs.BoundsParts.{as_bounds, ReadBounds};

use crate::BoundsAnswer;
use checks::limits::MAX_BLOWERS;
use checks::{Fault, Refusal};
use placing::{feasibility, windows};
use sheet::FeedSheet;

// 11: a list is not one bound for each slot.
fn is_faulty(slots: usize, lows: &[u32], highs: &[u32]) -> bool
    ensures { result ≡ bounds_fault slots lows.now highs.now }
{
    lows.len() != slots || highs.len() != slots
}

// Bounds as bytes, 0 past the day's end. One above the blowers is read as the blowers.
fn cut(blowers: u32, bounds: &[u32]) -> [u8; 96]
    requires { (blowers ≤ max_blowers) × (length bounds.now ≤ max_slots) }
    ensures { result ≡ padded max_slots (cut_highs blowers bounds.now) }
{
    let mut cuts = [0u8; 96];
    for (t, bound) in bounds.iter().enumerate() {
        cuts[t] = blowers.min(*bound) as u8;
    }
    cuts
}

// Whether low ≤ high in every slot.
fn are_ordered(lows: &[u32], high: &[u8; 96]) -> bool
    requires { (length lows.now ≤ max_slots) × (length high.now ≡ max_slots) }
    ensures { result ≡ at_most lows.now (take (length lows.now) high.now) }
{
    for (t, low) in lows.iter().enumerate() {
        if (high[t] as u32) < *low {
            return false;
        }
    }
    true
}

// Whether a sound placing exists on the day of a sheet that was read, under a low and a high for each slot.
fn is_possible(
    sheet: Result<FeedSheet, Refusal>,
    lows: &[u32],
    highs: &[u32],
) -> Result<bool, Refusal>
    ensures { ReadBounds (as_reading sheet) lows.now highs.now (as_bounds result) }
{
    let sheet = sheet?;
    let slots = sheet.slots as usize;
    if is_faulty(slots, lows, highs) {
        return Err(Fault::List.on(0));
    }
    let high = cut(sheet.blowers, highs);
    if !are_ordered(lows, &high) {
        return Ok(false);
    }
    // No low is above its high, so that none is cut.
    let low = cut(MAX_BLOWERS, lows);
    let rations = sheet.rations as usize;
    let mut words = [0u64; 96];
    windows::mark_windows(&mut words, rations, &sheet.numbers);
    let volumes = windows::volumes_of(rations, &sheet.numbers);
    Ok(feasibility::is_feasible(slots, &words, &volumes, &low, &high))
}

// An answer has number 0, a refusal its number and line and no.
impl From<Result<bool, Refusal>> for BoundsAnswer {
    ghost from_gives = { λ possible answer. answer ≡ as_bounds possible };

    fn from(possible: Result<bool, Refusal>) -> BoundsAnswer {
        match possible {
            Ok(yes) => BoundsAnswer {
                number: 0,
                line: 0,
                yes,
            },
            Err(refusal) => BoundsAnswer {
                number: refusal.number,
                line: refusal.line,
                yes: false,
            },
        }
    }
}

// The bounds question on the day of a sheet that was read: number 0 and whether a sound placing exists under a low and
// a high for each slot, a high above the blowers being read as the blowers; or the number and the line of the first
// refusal and no.
pub fn bounds_of(sheet: Result<FeedSheet, Refusal>, lows: &[u32], highs: &[u32]) -> BoundsAnswer
    ensures { ReadBounds (as_reading sheet) lows.now highs.now result }
{
    BoundsAnswer::from(is_possible(sheet, lows, highs))
}

// The bounds question on a sheet's day, from its bytes. Nothing lent is changed.
pub fn bounds(b: &[u8], lows: &[u32], highs: &[u32]) -> BoundsAnswer
    ensures { result ≡ bounds_of b.now lows.now highs.now }
{
    bounds_of(sheet::read_sheet(b), lows, highs)
}
