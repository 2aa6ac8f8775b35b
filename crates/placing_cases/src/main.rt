// Answers a stream of cases on standard input by the calls of the crate `questions`, for comparison with the answers of
// a second implementation.
//
// A payload has two parts: the lists, as long as the case's number says, and the sheet.
// Operation S asks for the shortfall of marked slots, B whether a sound placing exists under bounds.
#![tactic(auto)]

mod bounds_case;
mod shortfall_case;

use cases::Case;
use std::io;

// Answers one case.
fn answer(rt: &HostRuntime, case: Case<'_>) -> io::Result<()> {
    let (lists, sheet) = case.parts();
    match case.operation {
        b'S' => shortfall_case::answer(rt, lists, sheet),
        b'B' => bounds_case::answer(rt, lists, sheet),
        _ => Ok(()),
    }
}

fn main(rt: HostRuntime) {
    cases::answer_each(|case| answer(&rt, case));
}
