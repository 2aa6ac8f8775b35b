// One line of a sheet or of a listing: four fields of six columns and byte 10.
//
// A field holds a whole number in decimal, right-justified, with blanks on its left. What is written is read back to
// the same number, and a field or a line that is read without a fault is the one that is written for its numbers
// (specs/FieldLaws.antt, specs/LineLaws.antt).
#![tactic(auto)]

mod fields;
pub mod layout;
mod lines;

// for the layers above: each asks that the field, or the line, lies within what is lent
pub use fields::{field_faulty, field_number};
pub use lines::put_line;
