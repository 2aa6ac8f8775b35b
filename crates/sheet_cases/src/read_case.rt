// A sheet read: `R number line` and, where it is accepted, its numbers; then, on a line of its own, the sheet written
// back.
use sheet::Reading;
use std::io;

// Writes the sheet's numbers into a buffer of the sheet's own length: `W number line length same`, the last 1 where
// both hold the same bytes, else 0.
fn write_back(
    rt: &HostRuntime,
    sheet: &[u8],
    r: &Reading,
    numbers: &[u32],
    buffer: &mut [u8],
) -> io::Result<()> {
    let written = sheet::write(r.slots, r.blowers, r.wake, r.rations, numbers, buffer);
    let back: &[u8] = buffer;
    let same = u32::from(back == sheet);
    println!(rt;
        "W {} {} {} {same}",
        written.number, written.line, written.length
    )
}

pub fn answer(rt: &HostRuntime, sheet: &[u8]) -> io::Result<()> {
    let r = sheet::read(sheet);
    if r.number != 0 {
        return println!(rt; "R {} {}", r.number, r.line);
    }
    print!(rt; "R 0 0 {} {} {} {}", r.slots, r.blowers, r.wake, r.rations)?;
    let all: &[u32] = &r.numbers;
    let numbers = all.get(..4 * r.rations as usize).unwrap_or_default();
    for number in numbers {
        print!(rt; " {number}")?;
    }
    println!(rt)?;
    // an accepted sheet has at most 65 lines of 25 bytes
    let mut room = [0u8; 1625];
    let Some(buffer) = room.get_mut(..sheet.len()) else {
        return Ok(());
    };
    write_back(rt, sheet, &r, numbers, buffer)
}
