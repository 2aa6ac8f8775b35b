// The sheet of a seed written into a lent buffer: `P number line length`, and `D digest` of the whole buffer after the
// call.
use std::io;

pub fn answer(rt: &HostRuntime, payload: &[u8], size: u32) -> io::Result<()> {
    let mut numbers = [0u32; 1];
    cases::numbers(payload, &mut numbers);
    // no case lends a longer buffer
    let mut room = [0u8; 2000];
    let Some(buffer) = room.get_mut(..size as usize) else {
        return Ok(());
    };
    cases::fill(buffer);
    let written = practice::write_practice(numbers[0], buffer);
    println!(rt; "P {} {} {}", written.number, written.line, written.length)?;
    println!(rt; "D {}", cases::digest(buffer))
}
