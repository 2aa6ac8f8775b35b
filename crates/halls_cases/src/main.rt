// Answers a stream of cases on standard input by the crate `halls`, for comparison with the answers of a second
// implementation.
//
// Operation H plans a group of halls. The payload has two parts, the first as long as the case's number says: it holds
// the limit, the number of halls and for each of four halls where its sheet begins in the second part and the lengths
// of its sheet, its listing buffer and its placing buffer, one a line. The second part holds the sheets.
// Operation S goes through groups of four practice sheets. The payload holds the limit, the number of halls, the first
// seed and how many groups there are.
#![tactic(auto)]

mod group_case;
mod seeds_case;

use cases::Case;
use std::io;

// Answers one case.
fn answer(rt: &HostRuntime, case: Case<'_>) -> io::Result<()> {
    let (first, second) = case.parts();
    match case.operation {
        b'H' => group_case::answer(rt, first, second),
        b'S' => seeds_case::answer(rt, second),
        _ => Ok(()),
    }
}

fn main(rt: HostRuntime) {
    cases::answer_each(|case| answer(&rt, case));
}
