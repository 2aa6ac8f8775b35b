// The bounds question, from records.
ghost use Rattle.std.specs.Prelude.{◌≡◌};
ghost use Rattle.questions.specs.Calls.{bounds_for};
ghost use Rattle.records.specs.Records.{record_sheet, record_faults};

use crate::{Ration, readings};
use questions::BoundsAnswer;

// The bounds question on the day of a record for each ration: what `questions::bounds` answers to the sheet that these
// records make.
#[unsafe(no_mangle)]
pub extern "C" fn kiwimound_bounds_rations(
    slots: u32,
    blowers: u32,
    wake: u32,
    rations: &[Ration],
    lows: &[u32],
    highs: &[u32],
) -> BoundsAnswer
    ensures { result ≡ bounds_for (record_faults (record_sheet slots blowers wake rations.now)) (record_sheet slots blowers wake rations.now) lows.now highs.now }
{
    let sheet = readings::read_rations(slots, blowers, wake, rations);
    questions::bounds_of(sheet, lows, highs)
}
