// Plans a stream of sheets on standard input by the crates `planning` and `program`, for comparison with the plans of a
// second implementation. The payload is a sheet.
//
// Operation T writes what the program writes for the sheet, as it is.
// Operation O writes of the same `O number line length`, and the digest of a filled buffer with it at the front.
// Operation D plans the sheet, both buffers lent: `D number line length`, the digest of the listing and that of the
// whole placing buffer.
#![tactic(auto)]

use cases::Case;
use std::io;
use std::io::Write;

fn write_output(rt: &HostRuntime, sheet: &[u8]) -> io::Result<()> {
    let output = program::answer(sheet);
    rt.stdout()
        .write_all(cases::first_part(&output.bytes, output.length))
}

fn digest_output(rt: &HostRuntime, sheet: &[u8]) -> io::Result<()> {
    let planned = planning::plan_number(sheet);
    let output = program::answer(sheet);
    let mut room = [0u8; 38455];
    cases::fill(&mut room);
    let front = cases::digest(cases::first_part(&output.bytes, output.length));
    let digest = cases::digest_after(front, cases::second_part(&room, output.length));
    println!(rt;
        "O {} {} {} {digest}",
        planned.number, planned.line, output.length
    )
}

fn plan(rt: &HostRuntime, sheet: &[u8]) -> io::Result<()> {
    let mut room = [0u8; 38455];
    let mut placing = [0u64; 96];
    cases::fill(&mut room);
    cases::fill(&mut placing);
    let r = planning::plan_both(sheet, &mut room, &mut placing);
    let listing = cases::digest(cases::first_part(&room, r.length));
    println!(rt;
        "D {} {} {} {listing} {}",
        r.number,
        r.line,
        r.length,
        cases::digest(&placing)
    )
}

// Answers one case.
fn answer(rt: &HostRuntime, case: Case<'_>) -> io::Result<()> {
    let sheet = case.payload;
    match case.operation {
        b'T' => write_output(rt, sheet),
        b'O' => digest_output(rt, sheet),
        b'D' => plan(rt, sheet),
        _ => Ok(()),
    }
}

fn main(rt: HostRuntime) {
    cases::answer_each(|case| answer(&rt, case));
}
