// Answers cases of which some fail, by the two ways to go through a stream that the crate `cases` has.
//
// The answer of a case is its number, a colon and its payload; operation F fails after it. The first stream's cases are
// answered up to the first that fails, and then the rest of them, past the other that fails; the second stream has none
// that fails.
#![tactic(auto)]

use cases::Case;
use std::io;

// Answers one case.
fn answer(rt: &HostRuntime, case: Case<'_>) -> io::Result<()> {
    print!(rt; "{}:", case.number)?;
    for b in case.payload {
        print!(rt; "{}", *b as char)?;
    }
    println!(rt)?;
    if case.operation == b'F' {
        return Err(io::Error::other("as told"));
    }
    Ok(())
}

fn main(rt: HostRuntime) -> io::Result<()> {
    if let Err(error) = cases::answer_all(|case| answer(&rt, case)) {
        println!(rt; "{error}")?;
    }
    cases::answer_each(|case| answer(&rt, case));
    println!(rt; "end")?;
    cases::answer_all(|case| answer(&rt, case))?;
    println!(rt; "end")
}
