// What the programs that answer a stream of cases share: taking a case from standard input, the numbers and parts of
// its payload, and what a lent buffer of bytes or words holds, and its digest.
//
// A case has a header of 16 bytes, which has no fields of a sheet: the operation, a number in 5 columns, a blank, the
// payload's length in 8 columns and byte 10. The payload follows it.
// Operation E ends the stream.
#![tactic(auto)]

ghost use Rattle.std.specs.Prelude.{◌≡◌};
ghost use Rattle.cases.specs.Parts.{first_part, second_part};

mod buffers;
mod input;
mod payloads;

pub use buffers::{Element, digest, digest_after, fill, front};
pub use input::{answer_all, answer_each};
pub use payloads::{first_part, numbers, second_part};

// A case: its operation, its number, and its payload.
#[derive(Clone, Copy)]
pub struct Case<'a> {
    pub operation: u8,
    pub number: u32,
    pub payload: &'a [u8],
}

impl<'a> Case<'a> {
    // The two parts of the payload, the first as long as the number says; both empty where the payload is shorter.
    pub fn parts(&self) -> (&'a [u8], &'a [u8])
        ensures first { result.0.now ≡ first_part self.now.number self.now.payload.now }
        ensures second { result.1.now ≡ second_part self.now.number self.now.payload.now }
    {
        self.payload
            .split_at_checked(self.number as usize)
            .unwrap_or_default()
    }
}
