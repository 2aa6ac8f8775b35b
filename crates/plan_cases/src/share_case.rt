// A sheet planned with the greatest share of its rations, with both buffers: `S number line length share`, and
// `D digest digest` of the whole plan buffer and the whole placing buffer after the call. Of the practice sheets of a
// range of seeds, with buffers as long as they must be, `R seed number line length share digest digest`.
use practice::sizes::PRACTICE_BYTES;
use std::io;

pub fn answer(rt: &HostRuntime, lengths: &[u8], sheet: &[u8]) -> io::Result<()> {
    let mut numbers = [0u32; 2];
    cases::numbers(lengths, &mut numbers);
    // no case lends longer buffers
    let mut bytes = [0u8; 39000];
    let mut words = [0u64; 6144];
    let listing = cases::front(&mut bytes, numbers[0]);
    let placing = cases::front(&mut words, numbers[1]);
    cases::fill(listing);
    cases::fill(placing);
    let r = shares::plan_share(sheet, listing, placing);
    println!(rt; "S {} {} {} {}", r.number, r.line, r.length, r.share)?;
    println!(rt; "D {} {}", cases::digest(listing), cases::digest(placing))
}

fn answer_seed(rt: &HostRuntime, seed: u32) -> io::Result<()> {
    let mut sheet = [0u8; PRACTICE_BYTES];
    let made = practice::write_practice(seed, &mut sheet);
    let mut listing = [0u8; 38455];
    let mut placing = [0u64; 96];
    cases::fill(&mut listing);
    cases::fill(&mut placing);
    let r = shares::plan_share(
        cases::first_part(&sheet, made.length),
        &mut listing,
        &mut placing,
    );
    print!(rt; "R {seed} {} {} {} {}", r.number, r.line, r.length, r.share)?;
    println!(rt; " {} {}", cases::digest(&listing), cases::digest(&placing))
}

// The payload holds the first seed and how many there are.
pub fn answer_seeds(rt: &HostRuntime, payload: &[u8]) -> io::Result<()> {
    let mut range = [0u32; 2];
    cases::numbers(payload, &mut range);
    let [first, count] = range;
    for i in 0..count {
        // no range goes beyond the last seed
        answer_seed(rt, first.wrapping_add(i))?;
    }
    Ok(())
}
