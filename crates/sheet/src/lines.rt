// The lines of a sheet.
ghost use Rattle.std.specs.Prelude.{◌≡◌, ◌+◌, ◌*◌, ◌≤◌, ◌<◌, length};
ghost use Rattle.common.specs.Buffers.{put_at};
ghost use Rattle.line.specs.Layout.{line_bytes};
ghost use Rattle.checks.specs.Checks.{first_faulty};
ghost use Rattle.checks.specs.Sheet.{job_at, job_numbers};
ghost use Rattle.sheet.specs.Parts.{some_line, CanPutNumbers};

use line::layout::{FIELDS, LINE, NEWLINE, WIDTH};

// The first of the lines that holds a faulty field, counted from 1. A missing closing byte counts as one. The first
// fault leaves the loop over lines by its label, with the line as its value: the form that the specification names for
// this check (docs/specification.md, section 16), which no `for` has.
pub fn first_faulty(s: &[u8], lines: usize) -> Option<usize>
    requires { line_bytes * lines ≤ length s.now }
    ensures { result ≡ some_line (first_faulty s.now 0 lines) }
{
    let mut line = 0;
    let found = 'lines: loop {
        if line == lines {
            break 'lines None;
        }
        let at = LINE * line;
        for field in 0..FIELDS {
            if line::field_faulty(s, at + WIDTH * field) {
                break 'lines Some(line + 1);
            }
        }
        if s[at + WIDTH * FIELDS] != NEWLINE {
            break 'lines Some(line + 1);
        }
        line += 1;
    };
    found
}

// Puts the four numbers of a line into flat numbers, from a place on.
pub fn put_numbers(s: &[u8], line: usize, numbers: &mut [u32; 256], at: usize)
    requires { CanPutNumbers s.now line numbers.old at }
    ensures { numbers.new ≡ put_at at (job_numbers (job_at s.now line)) numbers.old }
{
    let from = LINE * line;
    let tank = line::field_number(s, from);
    let release = line::field_number(s, from + WIDTH);
    let deadline = line::field_number(s, from + WIDTH * 2);
    let volume = line::field_number(s, from + WIDTH * 3);
    numbers[at] = tank;
    numbers[at + 1] = release;
    numbers[at + 2] = deadline;
    numbers[at + 3] = volume;
}
