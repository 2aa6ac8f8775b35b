// Lists the causes of a stream of sheets on standard input by the crates `causes` and `program`, for comparison with
// the answers of a second implementation.
//
// Operation C calls with a buffer: the payload has two parts, the first as long as the case's number says; it holds the
// buffer's length, and the second part is a sheet. `C number line length cut`, and `D digest` of the whole buffer.
// Operation Y lends as many bytes as must be: `Y number line length cut`, and the listing as it is. The payload is a
// sheet, as that of W, which writes what the program `why` writes for it.
#![tactic(auto)]

use cases::Case;
use causes::CausesAnswer;
use std::io;
use std::io::Write;

// Writes the operation, number, line, length and whether the listing was cut.
fn write_answer(rt: &HostRuntime, operation: char, a: CausesAnswer) -> io::Result<()> {
    println!(rt;
        "{operation} {} {} {} {}",
        a.number,
        a.line,
        a.length,
        u32::from(a.cut)
    )
}

fn call(rt: &HostRuntime, lengths: &[u8], sheet: &[u8]) -> io::Result<()> {
    let mut numbers = [0u32; 1];
    cases::numbers(lengths, &mut numbers);
    // no case lends a longer buffer
    let mut room = [0u8; 70000];
    let Some(buffer) = room.get_mut(..numbers[0] as usize) else {
        return Ok(());
    };
    cases::fill(buffer);
    let a = causes::list_causes(sheet, buffer);
    write_answer(rt, 'C', a)?;
    println!(rt; "D {}", cases::digest(buffer))
}

fn write_listing(rt: &HostRuntime, sheet: &[u8]) -> io::Result<()> {
    let mut room = [0u8; 65536];
    let a = causes::list_causes(sheet, &mut room);
    write_answer(rt, 'Y', a)?;
    rt.stdout().write_all(cases::first_part(&room, a.length))
}

fn write_output(rt: &HostRuntime, sheet: &[u8]) -> io::Result<()> {
    let output = program::explain(sheet);
    rt.stdout()
        .write_all(cases::first_part(&output.bytes, output.length))
}

// Answers one case.
fn answer(rt: &HostRuntime, case: Case<'_>) -> io::Result<()> {
    match case.operation {
        b'C' => {
            let (lengths, sheet) = case.parts();
            call(rt, lengths, sheet)
        }
        b'Y' => write_listing(rt, case.payload),
        b'W' => write_output(rt, case.payload),
        _ => Ok(()),
    }
}

fn main(rt: HostRuntime) {
    cases::answer_each(|case| answer(&rt, case));
}
