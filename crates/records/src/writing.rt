// Writing a sheet from records.
ghost use Rattle.std.specs.Prelude.{◌≡◌, length};
ghost use Rattle.sheet.specs.Calls.{write_refusal_for, written_of, buffer_after};
ghost use Rattle.records.specs.Records.{record_sheet, record_faults};

use crate::{Ration, readings};
use sheet::Written;

// Writes a sheet from its head line's numbers and a record for each ration: number 0 and the length of the sheet, whose
// bytes stand at the front of `out`; or the number and the line of the first refusal, and `out` as it was. Bytes of
// `out` after the sheet keep their values.
#[unsafe(no_mangle)]
pub extern "C" fn kiwimound_write_rations(
    slots: u32,
    blowers: u32,
    wake: u32,
    rations: &[Ration],
    out: &mut [u8],
) -> Written
    ensures { (result ≡ written_of (write_refusal_for (record_faults (record_sheet slots blowers wake rations.now)) (record_sheet slots blowers wake rations.now) (length out.old)) (record_sheet slots blowers wake rations.now))
        × (out.new ≡ buffer_after (write_refusal_for (record_faults (record_sheet slots blowers wake rations.now)) (record_sheet slots blowers wake rations.now) (length out.old)) (record_sheet slots blowers wake rations.now) out.old) }
{
    let reading = readings::read_rations(slots, blowers, wake, rations);
    sheet::write_of(reading, out)
}
