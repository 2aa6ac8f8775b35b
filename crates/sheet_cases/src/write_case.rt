// A sheet written: `W number line length`, and `D digest` of the whole buffer after the call.
use std::io;

// Writes a sheet from the numbers, which are slots, blowers, wake cost, rations and the flat numbers, into the buffer.
fn write(rt: &HostRuntime, numbers: &[u32], buffer: &mut [u8]) -> io::Result<()> {
    let [slots, blowers, wake, rations, flat @ ..] = numbers else {
        return Ok(());
    };
    cases::fill(buffer);
    let written = sheet::write(*slots, *blowers, *wake, *rations, flat, buffer);
    println!(rt; "W {} {} {}", written.number, written.line, written.length)?;
    println!(rt; "D {}", cases::digest(buffer))
}

// The buffer has the bytes of the room that are asked for.
pub fn answer(rt: &HostRuntime, payload: &[u8], size: u32) -> io::Result<()> {
    let mut numbers = [0u32; 300];
    let count = cases::numbers(payload, &mut numbers);
    let mut room = [0u8; 2000];
    let Some(buffer) = room.get_mut(..size as usize) else {
        return Ok(());
    };
    write(rt, &numbers[..count], buffer)
}
