// The layout of a line, each number named once. specs/Layout.antt names the same for the definitions.

// columns of a field, fields of a line, and bytes of a line: its fields and the closing byte
pub const WIDTH: usize = 6;

pub const FIELDS: usize = 4;

pub const LINE: usize = 25;

// the bytes that are not digits: a blank, and the byte that closes a line
pub const BLANK: u8 = b' ';

pub const NEWLINE: u8 = b'\n';
