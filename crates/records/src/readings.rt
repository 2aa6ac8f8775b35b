// The reading of a sheet's numbers at hand, for the calls that have what was read.
ghost use Rattle.std.specs.Prelude.{◌≡◌};
ghost use Rattle.sheet.specs.Calls.{reading_from};
ghost use Rattle.sheet.specs.FeedSheets.{as_reading};
ghost use Rattle.records.specs.Records.{record_sheet, record_faults};
ghost use Rattle.records.specs.Flat.{IsFlat, flat_sheet};

use crate::{Flat, Ration, flats};
use checks::Refusal;
use sheet::FeedSheet;

// Flat numbers, as a sheet.
fn read_flat(slots: u32, blowers: u32, wake: u32, flat: Flat) -> Result<FeedSheet, Refusal>
    requires { IsFlat flat }
    ensures { as_reading result ≡ reading_from (record_faults (flat_sheet slots blowers wake flat)) (flat_sheet slots blowers wake flat) }
{
    let n = flat.count;
    let end = 4 * n;
    let numbers = flat.numbers;
    sheet::read_numbers(slots, blowers, wake, n as u32, &numbers[..end])
}

// Reads a sheet from its head line's numbers and a record for each ration: its numbers, or the first
// refusal. Every call on records begins with it.
pub fn read_rations(
    slots: u32,
    blowers: u32,
    wake: u32,
    rations: &[Ration],
) -> Result<FeedSheet, Refusal>
    ensures { as_reading result ≡ reading_from (record_faults (record_sheet slots blowers wake rations.now)) (record_sheet slots blowers wake rations.now) }
{
    read_flat(slots, blowers, wake, flats::flatten(rations))
}
