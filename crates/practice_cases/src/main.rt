// Answers a stream of cases on standard input by the crates `practice` and `program`, and plans the sheets made by
// `planning` and `causes`, for comparison with the answers of a second implementation.
//
// Operation P makes the call with a buffer as long as the case's number says; the payload holds the seed.
// Operation T writes what the program writes for the payload, L what it writes for an input as long as the case's
// number says.
// Operation S goes through a range of seeds; the payload holds the first and how many there are.
#![tactic(auto)]

mod call_case;
mod input_case;
mod seeds_case;

use cases::Case;
use std::io;

// Answers one case.
fn answer(rt: &HostRuntime, case: Case<'_>) -> io::Result<()> {
    match case.operation {
        b'P' => call_case::answer(rt, case.payload, case.number),
        b'T' => input_case::answer(rt, case.payload),
        b'L' => input_case::answer_long(rt, case.number),
        b'S' => seeds_case::answer(rt, case.payload),
        _ => Ok(()),
    }
}

fn main(rt: HostRuntime) {
    cases::answer_each(|case| answer(&rt, case));
}
