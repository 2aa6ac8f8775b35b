// Answers a stream of cases on standard input by the planning calls of the crates `planning`, `comparison` and
// `shares`, for comparison with the answers of a second implementation.
//
// A payload has two parts, the first as long as the case's number says; the second is a sheet.
// Operation P plans with a plan buffer, G with a placing buffer, B with both and N with none: the first part holds the
// buffers' lengths, one a line, that of a placing buffer in words.
// Operation C compares the plan of the sheet that is the first part with that of the second.
// Operation S plans the greatest share of a sheet's rations, with both buffers, as B does. Operation R does so with the
// practice sheets of a range of seeds: the payload, which has one part, holds the first seed and how many there are.
#![tactic(auto)]

mod both_case;
mod compare_case;
mod listing_case;
mod none_case;
mod placing_case;
mod share_case;

use cases::Case;
use std::io;

// Answers one case.
fn answer(rt: &HostRuntime, case: Case<'_>) -> io::Result<()> {
    let (first, second) = case.parts();
    match case.operation {
        b'P' => listing_case::answer(rt, first, second),
        b'G' => placing_case::answer(rt, first, second),
        b'B' => both_case::answer(rt, first, second),
        b'N' => none_case::answer(rt, second),
        b'C' => compare_case::answer(rt, first, second),
        b'S' => share_case::answer(rt, first, second),
        b'R' => share_case::answer_seeds(rt, second),
        _ => Ok(()),
    }
}

fn main(rt: HostRuntime) {
    cases::answer_each(|case| answer(&rt, case));
}
