// The shortfall of a set of slots, from records.
ghost use Rattle.std.specs.Prelude.{◌≡◌};
ghost use Rattle.questions.specs.Calls.{shortfall_for};
ghost use Rattle.records.specs.Records.{record_sheet, record_faults};

use crate::{Ration, readings};
use questions::ShortfallAnswer;

// The shortfall of the marked slots of the day of a record for each ration: what `questions::shortfall` answers to the
// sheet that these records make.
#[unsafe(no_mangle)]
pub extern "C" fn kiwimound_shortfall_rations(
    slots: u32,
    blowers: u32,
    wake: u32,
    rations: &[Ration],
    marks: &[u8],
) -> ShortfallAnswer
    ensures { result ≡ shortfall_for (record_faults (record_sheet slots blowers wake rations.now)) (record_sheet slots blowers wake rations.now) marks.now }
{
    let sheet = readings::read_rations(slots, blowers, wake, rations);
    questions::shortfall_of(sheet, marks)
}
