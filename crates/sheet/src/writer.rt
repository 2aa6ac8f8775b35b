// Writing a sheet.
ghost use Rattle.std.specs.Prelude.{◌≡◌, ◌+◌, ◌*◌, ◌<◌, length, take};
ghost use Rattle.common.specs.Lists.{flat_map};
ghost use Rattle.common.specs.Buffers.{put_at};
ghost use Rattle.line.specs.Layout.{line_bytes, fields};
ghost use Rattle.checks.specs.Sheet.{jobs_of, write_job, sheet_from};
ghost use Rattle.sheet.specs.Calls.{write_refusal, written_of, buffer_after};
ghost use Rattle.sheet.specs.OwnChecks.{ReadWritten};
ghost use Rattle.sheet.specs.FeedSheets.{as_reading, as_written};
ghost use Rattle.sheet.specs.Parts.{CanPutRations};

use crate::{FeedSheet, Written, reader};
use checks::{Fault, Refusal};
use line::layout::LINE;

// Writes a line for each of n rations, from the second line on.
fn put_rations(out: &mut [u8], n: usize, numbers: &[u32])
    requires { CanPutRations out.old n numbers.now }
    ensures { out.new ≡ put_at line_bytes (flat_map write_job (jobs_of (take (fields * n) numbers.now))) out.old }
{
    for i in 0..n {
        let at = 4 * i;
        line::put_line(
            out,
            LINE * (i + 1),
            numbers[at],
            numbers[at + 1],
            numbers[at + 2],
            numbers[at + 3],
        );
    }
}

// Writes the sheet that was read, where no check of it applied and the buffer is long enough, and gives its length.
fn put_sheet(sheet: Result<FeedSheet, Refusal>, out: &mut [u8]) -> Result<usize, Refusal>
    ensures { ReadWritten (as_reading sheet) out.old out.new (as_written result) }
{
    let sheet = sheet?;
    let n = sheet.rations as usize;
    let length = LINE * (n + 1);
    if out.len() < length {
        return Err(Fault::Buffer.on(0));
    }
    line::put_line(
        out,
        0,
        sheet.slots,
        sheet.blowers,
        sheet.wake,
        sheet.rations,
    );
    put_rations(out, n, &sheet.numbers);
    Ok(length)
}

// The length of the sheet written has number 0, a refusal its number and line and length 0.
impl From<Result<usize, Refusal>> for Written {
    ghost from_gives = { λ length written. written ≡ as_written length };

    fn from(length: Result<usize, Refusal>) -> Written {
        match length {
            Ok(length) => Written {
                number: 0,
                line: 0,
                length,
            },
            Err(refusal) => Written {
                number: refusal.number,
                line: refusal.line,
                length: 0,
            },
        }
    }
}

// Writes the sheet that was read, where no check of it applied and the buffer is long enough: number 0 and its length,
// and its bytes at the front of out; or the number and the line of the first refusal, and out as it was.
pub fn write_of(sheet: Result<FeedSheet, Refusal>, out: &mut [u8]) -> Written
    ensures { ReadWritten (as_reading sheet) out.old out.new result }
{
    Written::from(put_sheet(sheet, out))
}

// Writes a sheet from its head line's numbers and the flat numbers of its rations, four for each: tank, first slot,
// last slot, volume, as `kiwimound_write` lends them. Number 0 and the length of the sheet, whose bytes stand at the
// front of out; or the number and the line of the first refusal, and out as it was. Bytes of out after the sheet keep
// their values.
pub fn write(
    slots: u32,
    blowers: u32,
    wake: u32,
    rations: u32,
    numbers: &[u32],
    out: &mut [u8],
) -> Written
    ensures value { result ≡ written_of (write_refusal (sheet_from slots blowers wake numbers.now) rations numbers.now (length out.old))
        (sheet_from slots blowers wake numbers.now) }
    ensures out_bytes { out.new ≡ buffer_after (write_refusal (sheet_from slots blowers wake numbers.now) rations numbers.now (length out.old))
        (sheet_from slots blowers wake numbers.now) out.old }
{
    write_of(
        reader::read_numbers(slots, blowers, wake, rations, numbers),
        out,
    )
}
