// The bounds question: `B number line yes`. The lists are numbers, one a line: how many lows there are, the lows, the
// highs.
use std::io;

pub fn answer(rt: &HostRuntime, lists: &[u8], sheet: &[u8]) -> io::Result<()> {
    // no case has lists of more than twice 96 numbers
    let mut numbers = [0u32; 400];
    let count = cases::numbers(lists, &mut numbers);
    let [lows, bounds @ ..] = &numbers[..count] else {
        return Ok(());
    };
    let Some((lows, highs)) = bounds.split_at_checked(*lows as usize) else {
        return Ok(());
    };
    let r = questions::bounds(sheet, lows, highs);
    println!(rt; "B {} {} {}", r.number, r.line, u32::from(r.yes))
}
