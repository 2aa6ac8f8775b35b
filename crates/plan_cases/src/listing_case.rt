// A sheet planned with a plan buffer: `P number line length`, and `D digest` of the whole buffer after the call.
use std::io;

pub fn answer(rt: &HostRuntime, lengths: &[u8], sheet: &[u8]) -> io::Result<()> {
    let mut numbers = [0u32; 1];
    cases::numbers(lengths, &mut numbers);
    // no case lends a longer buffer
    let mut room = [0u8; 39000];
    let Some(buffer) = room.get_mut(..numbers[0] as usize) else {
        return Ok(());
    };
    cases::fill(buffer);
    let r = planning::plan(sheet, buffer);
    println!(rt; "P {} {} {}", r.number, r.line, r.length)?;
    println!(rt; "D {}", cases::digest(buffer))
}
