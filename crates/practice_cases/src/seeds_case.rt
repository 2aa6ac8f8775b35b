// The sheets of a range of seeds. Of each `S seed number length` and the digest of a whole buffer, which has room for
// the longest; then the sheet planned with both buffers, `D number line length`, the digest of the listing and that of
// the whole placing buffer; then its causes, `C number line length cut` and the digest of the listing.
use practice::sizes::PRACTICE_BYTES;
use std::io;

fn plan(rt: &HostRuntime, sheet: &[u8]) -> io::Result<()> {
    let mut room = [0u8; 38455];
    let mut placing = [0u64; 96];
    cases::fill(&mut room);
    cases::fill(&mut placing);
    let r = planning::plan_both(sheet, &mut room, &mut placing);
    let listing = cases::digest(cases::first_part(&room, r.length));
    println!(rt;
        "D {} {} {} {listing} {}",
        r.number,
        r.line,
        r.length,
        cases::digest(&placing)
    )
}

fn list_causes(rt: &HostRuntime, sheet: &[u8]) -> io::Result<()> {
    let mut room = [0u8; 65536];
    cases::fill(&mut room);
    let a = causes::list_causes(sheet, &mut room);
    let listing = cases::digest(cases::first_part(&room, a.length));
    println!(rt;
        "C {} {} {} {} {listing}",
        a.number,
        a.line,
        a.length,
        u32::from(a.cut)
    )
}

fn answer_seed(rt: &HostRuntime, seed: u32) -> io::Result<()> {
    let mut room = [0u8; PRACTICE_BYTES];
    cases::fill(&mut room);
    let written = practice::write_practice(seed, &mut room);
    println!(rt;
        "S {seed} {} {} {}",
        written.number,
        written.length,
        cases::digest(&room)
    )?;
    let sheet = cases::first_part(&room, written.length);
    plan(rt, sheet)?;
    list_causes(rt, sheet)
}

// The payload holds the first seed and how many there are.
pub fn answer(rt: &HostRuntime, payload: &[u8]) -> io::Result<()> {
    let mut range = [0u32; 2];
    cases::numbers(payload, &mut range);
    let [first, count] = range;
    for i in 0..count {
        // no range goes beyond the last seed
        answer_seed(rt, first.wrapping_add(i))?;
    }
    Ok(())
}
