// The stretches of a blower, read off the counts: it is busy in the slots whose count is at least its number.
ghost use Rattle.std.specs.Prelude.{◌≡◌, ◌<◌, leb, length};
ghost use Rattle.method.specs.FrontRunLaws.{EndsAt};

// Whether a blower is busy in a slot with this count.
pub fn is_busy(blower: u32, count: u8) -> bool
    ensures { result ≡ leb blower count }
{
    blower <= count as u32
}

// The last slot of the stretch of a blower that begins in slot from + 1, from the counts of a day's slots.
pub fn stretch_end(counts: &[u8], blower: u32, from: usize) -> usize
    requires { from < length counts.now }
    ensures { EndsAt counts.now (length counts.now) blower from result }
{
    let busy = is_busy(blower, counts[from]);
    for end in from + 1..counts.len() {
        if is_busy(blower, counts[end]) != busy {
            return end;
        }
    }
    counts.len()
}
