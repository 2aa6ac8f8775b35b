// A field: six columns that hold a whole number in decimal, right-justified, with blanks on its left.
ghost use Rattle.std.specs.Prelude.{◌≡◌, ◌+◌, ◌-◌, ◌*◌, ◌^◌, ◌<◌, ◌≤◌, length, take, drop};
ghost use Rattle.std.specs.List.{position};
ghost use Rattle.common.specs.Buffers.{put_at};
ghost use Rattle.line.specs.Layout.{width};
ghost use Rattle.line.specs.Field.{digits, decimal, parse, number_of, is_faulty, leading, write_field};
ghost use Rattle.line.specs.Parts.{is_other, column};

use crate::layout::{BLANK, WIDTH};

// The number whose digits follow those of the number before; nothing where one of them is no digit.
fn add_digits(others: &[u8], before: u32) -> Option<u32>
    requires { (before + 1) * 10 ^ length others.now ≤ 10 ^ width }
    ensures { result ≡ digits before others.now }
{
    let mut value = before;
    for b in others {
        if !b.is_ascii_digit() {
            return None;
        }
        value = value * 10 + (b - b'0') as u32;
    }
    Some(value)
}

// The whole number that a first byte and those after it are; nothing where they are none in the stated form.
fn whole_number(first: u8, others: &[u8]) -> Option<u32>
    requires { length others.now < width }
    ensures { result ≡ decimal first others.now }
{
    match first {
        b'0' => others.is_empty().then_some(0),
        b'1'..=b'9' => add_digits(others, (first - b'0') as u32),
        _ => None,
    }
}

// How many blanks stand before the first other byte; nothing where there is no other.
fn blanks_before(field: &[u8]) -> Option<usize>
    ensures { result ≡ position is_other field.now }
{
    field.iter().position(|b| *b != BLANK)
}

// The number that the field at a place of s holds; nothing where the field is not in the stated form.
pub fn read_field(s: &[u8], at: usize) -> Option<u32>
    requires { at + width ≤ length s.now }
    ensures { result ≡ parse (take width (drop at s.now)) }
{
    let field = &s[at..at + WIDTH];
    let blanks = blanks_before(field)?;
    whole_number(field[blanks], &field[blanks + 1..])
}

// The number of the field at a place of s, 0 for a faulty one.
pub fn field_number(s: &[u8], at: usize) -> u32
    requires { at + width ≤ length s.now }
    ensures { result ≡ number_of (parse (take width (drop at s.now))) }
{
    read_field(s, at).unwrap_or(0)
}

// Whether the field at a place of s is not in the stated form.
pub fn field_faulty(s: &[u8], at: usize) -> bool
    requires { at + width ≤ length s.now }
    ensures { result ≡ is_faulty (parse (take width (drop at s.now))) }
{
    read_field(s, at).is_none()
}

// The byte of a column left of the last: a blank where no digit is left.
fn column_byte(rest: u32) -> u8
    ensures { result ≡ column rest }
{
    if rest == 0 {
        BLANK
    } else {
        b'0' + (rest % 10) as u8
    }
}

// Writes the columns before the last two, where `rest` is the number without its last two digits. Most numbers of a
// listing have no other digit: these columns are then blank, and nothing is divided.
fn put_leading(columns: &mut [u8], rest: u32)
    requires { length columns.old ≡ width - 2 }
    ensures { columns.new ≡ leading (width - 2) rest }
{
    if rest == 0 {
        columns.fill(BLANK);
        return;
    }
    let mut left = rest;
    for i in (0..WIDTH - 2).rev() {
        columns[i] = column_byte(left);
        left /= 10;
    }
}

// Writes the field of v at a place of out: each column has what is left of v without the columns after it.
pub fn put_field(out: &mut [u8], at: usize, v: u32)
    requires { at + width ≤ length out.old }
    ensures { out.new ≡ put_at at (write_field v) out.old }
{
    let field = &mut out[at..at + WIDTH];
    put_leading(&mut field[..WIDTH - 2], v / 100);
    field[WIDTH - 2] = column_byte(v / 10);
    field[WIDTH - 1] = b'0' + (v % 10) as u8;
}
