// A sheet planned with both buffers: `B number line length`, and `D digest digest` of the whole plan buffer and the
// whole placing buffer after the call.
use std::io;

pub fn answer(rt: &HostRuntime, lengths: &[u8], sheet: &[u8]) -> io::Result<()> {
    let mut numbers = [0u32; 2];
    cases::numbers(lengths, &mut numbers);
    // no case lends longer buffers
    let mut bytes = [0u8; 39000];
    let mut words = [0u64; 6144];
    let listing = cases::front(&mut bytes, numbers[0]);
    let placing = cases::front(&mut words, numbers[1]);
    cases::fill(listing);
    cases::fill(placing);
    let r = planning::plan_both(sheet, listing, placing);
    println!(rt; "B {} {} {}", r.number, r.line, r.length)?;
    println!(rt; "D {} {}", cases::digest(listing), cases::digest(placing))
}
