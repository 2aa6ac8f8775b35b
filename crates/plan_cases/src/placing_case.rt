// A sheet planned with a placing buffer: `G number line length`, and `D digest` of the whole buffer after the call.
use std::io;

pub fn answer(rt: &HostRuntime, lengths: &[u8], sheet: &[u8]) -> io::Result<()> {
    let mut numbers = [0u32; 1];
    cases::numbers(lengths, &mut numbers);
    // no case lends a longer buffer
    let mut room = [0u64; 6144];
    let Some(buffer) = room.get_mut(..numbers[0] as usize) else {
        return Ok(());
    };
    cases::fill(buffer);
    let r = planning::plan_placing(sheet, buffer);
    println!(rt; "G {} {} {}", r.number, r.line, r.length)?;
    println!(rt; "D {}", cases::digest(buffer))
}
