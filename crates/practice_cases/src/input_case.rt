// What the program writes for an input, as it is.
use std::io;
use std::io::Write;

pub fn answer(rt: &HostRuntime, input: &[u8]) -> io::Result<()> {
    let made = program::make_sheet(input);
    rt.stdout()
        .write_all(cases::first_part(&made.bytes, made.length))
}

// The input has so many bytes: seed 1 in its field, the closing byte, and then blanks. So it may be longer than any
// payload.
pub fn answer_long(rt: &HostRuntime, size: u32) -> io::Result<()> {
    let mut input = [b' '; 70000];
    input[5] = b'1';
    input[6] = b'\n';
    answer(rt, cases::first_part(&input, size as usize))
}
