// The feed sheet: reading and writing.
//
// A sheet is ASCII text in lines of four fields: the head line, and a line for each ration. `read_sheet` gives the
// sheet's numbers or the first refusal of the paper's checks 1 to 9 and 13, and `write` makes a sheet's bytes from its
// numbers. What is written is read back to the same numbers, and what is accepted is written back to the same bytes
// (proofs/Theorems.antt). `read_numbers` reads numbers at hand, under the checks 3 to 9 and 13, so that whatever takes
// an accepted sheet need not know where it comes from. `read` gives what `read_sheet` does as a struct of C's.
#![tactic(auto)]

mod feed_sheet;
mod lines;
mod reader;
mod writer;

pub use feed_sheet::FeedSheet;
pub use reader::{read, read_sheet};
pub use writer::write;

// for the layers above: `write_of` takes what was read
pub use reader::read_numbers;
pub use writer::write_of;

// What `read` answers. On a refusal every field after `line` is 0: a number with the values beside it, since C reads it
// (`kiwimound_read`).
#[repr(C)]
#[derive(Clone, Copy)]
pub struct Reading {
    pub number: u32,
    pub line: u32,
    pub slots: u32,
    pub blowers: u32,
    pub wake: u32,
    pub rations: u32,
    // four numbers for each ration, in sheet order: tank, first slot, last slot, volume; 0 past the last ration
    pub numbers: [u32; 256],
}

// What `write` answers: the length is that of the sheet written, 0 on a refusal. C reads it too (`kiwimound_write`).
#[repr(C)]
#[derive(Clone, Copy)]
pub struct Written {
    pub number: u32,
    pub line: u32,
    pub length: usize,
}
