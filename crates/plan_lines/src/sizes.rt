// The sizes of the buffers that the calls which plan are lent, each named once. specs/Sizes.antt names the same for the
// definitions.
use line::layout::LINE;

// bytes of the word that opens a listing, with its byte 10
pub const WORD: usize = 5;

// the least length of a plan buffer, 38,455: room for the word, the head line, a stretch line and a feed line for each
// slot of each blower, and the bill's line
pub const PLAN_BYTES: usize = WORD + LINE * (2 + 2 * (96 * 8));

// the least length of a placing buffer, 96 words of 64 bits: one for each slot
pub const PLACING_WORDS: usize = 96;

// the least length of a causes' buffer, and the most that their listing takes
pub const CAUSES_BYTES: usize = 65536;
