// The size of a practice sheet and the greatest seed of an input, each named once. specs/Practice.antt names the same
// for the definitions.
use line::layout::LINE;

// bytes of the longest practice sheet, 1,625: its head line and a line for each of 64 rations
pub const PRACTICE_BYTES: usize = LINE * (1 + 64);

// the greatest seed that an input may have
pub const MAX_SEED: u32 = 99999;
