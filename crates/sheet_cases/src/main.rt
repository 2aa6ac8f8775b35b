// Answers a stream of cases on standard input by the calls of the crates `sheet` and `lookup`, for comparison with the
// answers of a second implementation.
//
// Operation R reads a sheet and writes it back. F looks up a tank: the payload has two parts, the first as long as the
// case's number says; it holds the tank, and the second part is a sheet. W writes a sheet into a buffer as long as the
// case's number.
#![tactic(auto)]

mod find_case;
mod read_case;
mod write_case;

use cases::Case;
use std::io;

// Answers one case.
fn answer(rt: &HostRuntime, case: Case<'_>) -> io::Result<()> {
    match case.operation {
        b'R' => read_case::answer(rt, case.payload),
        b'F' => {
            let (list, sheet) = case.parts();
            find_case::answer(rt, list, sheet)
        }
        b'W' => write_case::answer(rt, case.payload, case.number),
        _ => Ok(()),
    }
}

fn main(rt: HostRuntime) {
    cases::answer_each(|case| answer(&rt, case));
}
