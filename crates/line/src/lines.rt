// A line: four fields and byte 10.
ghost use Rattle.std.specs.Prelude.{◌≡◌, ◌+◌, ◌≤◌, length};
ghost use Rattle.common.specs.Buffers.{put_at};
ghost use Rattle.line.specs.Layout.{line_bytes};
ghost use Rattle.line.specs.Line.{write_line};

use crate::fields;
use crate::layout::{FIELDS, NEWLINE, WIDTH};

// Writes a line of four numbers at a place of out. A loop over the four is no plainer: a call for each shows what
// stands where.
pub fn put_line(out: &mut [u8], at: usize, a: u32, b: u32, c: u32, d: u32)
    requires { at + line_bytes ≤ length out.old }
    ensures { out.new ≡ put_at at (write_line a b c d) out.old }
{
    fields::put_field(out, at, a);
    fields::put_field(out, at + WIDTH, b);
    fields::put_field(out, at + WIDTH * 2, c);
    fields::put_field(out, at + WIDTH * 3, d);
    out[at + WIDTH * FIELDS] = NEWLINE;
}
