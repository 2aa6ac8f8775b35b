// Reading a sheet.
ghost use Rattle.std.specs.Prelude.{◌≡◌, ◌++◌, map, ◌+◌, ◌*◌, ◌≤◌, ◌<◌, length};
ghost use Rattle.common.specs.Lists.{range};
ghost use Rattle.common.specs.Buffers.{padded};
ghost use Rattle.line.specs.Layout.{line_bytes, fields};
ghost use Rattle.checks.specs.Limits.{max_rations};
ghost use Rattle.checks.specs.Sheet.{job_at, numbers_of, sheet_from};
ghost use Rattle.checks.specs.Checks.{first_refusal, length_faults, form_faults, flat_faults};
ghost use Rattle.checks.specs.Verdicts.{verdict};
ghost use Rattle.sheet.specs.Calls.{reading_from, reading_of};
ghost use Rattle.sheet.specs.FeedSheets.{as_reading};

use crate::{FeedSheet, Reading, lines};
use checks::limits::MAX_BYTES;
use checks::{Fault, Refusal};
use line::layout::{LINE, WIDTH};

// 1 and 2: the length, and the form of every line.
fn form_refusal(b: &[u8]) -> Result<(), Refusal>
    ensures { result ≡ verdict (first_refusal (length_faults b.now ++ form_faults b.now)) }
{
    if !(LINE..=MAX_BYTES).contains(&b.len()) || b.len() % LINE != 0 {
        return Err(Fault::Length.on(0));
    }
    match lines::first_faulty(b, b.len() / LINE) {
        Some(line) => Err(Fault::Form.on(line as u32)),
        None => Ok(()),
    }
}

// The numbers of n rations, on the lines after the head line; 0 past them.
fn ration_numbers(b: &[u8], n: usize) -> [u32; 256]
    requires { (n ≤ max_rations) × (line_bytes * n + line_bytes ≤ length b.now) }
    ensures { result ≡ padded (fields * max_rations) (numbers_of (map (job_at b.now) (range 1 n))) }
{
    let mut numbers = [0u32; 256];
    for i in 0..n {
        lines::put_numbers(b, i + 1, &mut numbers, 4 * i);
    }
    numbers
}

// Reads the bytes of a sheet: its numbers, or the first refusal. Nothing lent is changed. It costs one pass over the
// bytes for the form and one for the values.
pub fn read_sheet(b: &[u8]) -> Result<FeedSheet, Refusal>
    ensures { as_reading result ≡ reading_of b.now }
{
    form_refusal(b)?;
    let slots = line::field_number(b, 0);
    let blowers = line::field_number(b, WIDTH);
    let wake = line::field_number(b, WIDTH * 2);
    let rations = line::field_number(b, WIDTH * 3);
    let n = b.len() / LINE - 1;
    checks::head_refusal(slots, blowers, wake, rations, rations as usize == n)?;
    let numbers = ration_numbers(b, n);
    checks::rations_refusal(slots, n, &numbers)?;
    Ok(FeedSheet {
        slots,
        blowers,
        wake,
        rations,
        numbers,
    })
}

// An accepted sheet has number 0 and its numbers, a refusal its number and line and zeros.
impl From<Result<FeedSheet, Refusal>> for Reading {
    ghost from_gives = { λ sheet reading. reading ≡ as_reading sheet };

    fn from(sheet: Result<FeedSheet, Refusal>) -> Reading {
        match sheet {
            Ok(sheet) => {
                let numbers = sheet.numbers;
                Reading {
                    number: 0,
                    line: 0,
                    slots: sheet.slots,
                    blowers: sheet.blowers,
                    wake: sheet.wake,
                    rations: sheet.rations,
                    numbers,
                }
            }
            Err(refusal) => Reading {
                number: refusal.number,
                line: refusal.line,
                slots: 0,
                blowers: 0,
                wake: 0,
                rations: 0,
                numbers: [0u32; 256],
            },
        }
    }
}

// Reads the bytes of a sheet: number 0 and its numbers, or the number and the line of the first refusal and zeros.
pub fn read(b: &[u8]) -> Reading
    ensures { result ≡ reading_of b.now }
{
    Reading::from(read_sheet(b))
}

// Flat numbers in an array, 0 past them.
fn padded_numbers(numbers: &[u32]) -> [u32; 256]
    requires { length numbers.now ≤ fields * max_rations }
    ensures { result ≡ padded (fields * max_rations) numbers.now }
{
    let mut padded = [0u32; 256];
    padded[..numbers.len()].copy_from_slice(numbers);
    padded
}

// Reads a sheet from its head line's numbers and the flat numbers of its rations, four for each: these numbers, or the
// first refusal. Where none applies it is what `read_sheet` gives for the bytes of that sheet, without the bytes.
pub fn read_numbers(
    slots: u32,
    blowers: u32,
    wake: u32,
    rations: u32,
    numbers: &[u32],
) -> Result<FeedSheet, Refusal>
    ensures { as_reading result ≡ reading_from (flat_faults (sheet_from slots blowers wake numbers.now) rations numbers.now) (sheet_from slots blowers wake numbers.now) }
{
    checks::value_refusal(slots, blowers, wake, rations, numbers)?;
    Ok(FeedSheet {
        slots,
        blowers,
        wake,
        rations,
        numbers: padded_numbers(numbers),
    })
}
