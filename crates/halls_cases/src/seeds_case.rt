// Groups of four practice sheets, whose seeds follow each other. Of each group `S seed` and then what a group's case
// writes after its letter, the buffers lent being as long as they must be.
use crate::group_case;
use crate::group_case::Hall;
use practice::sizes::PRACTICE_BYTES;
use std::io;

// The hall of a seed, its sheet written into the room.
fn practice_hall(seed: u32, room: &mut [u8; PRACTICE_BYTES]) -> Hall<'_> {
    let made = practice::write_practice(seed, room);
    let sheet = cases::first_part(room, made.length);
    Hall {
        sheet,
        bytes: 38455,
        words: 96,
    }
}

fn answer_group(rt: &HostRuntime, limit: u32, halls: u32, seed: u32) -> io::Result<()> {
    let mut sheet_1 = [0u8; PRACTICE_BYTES];
    let mut sheet_2 = [0u8; PRACTICE_BYTES];
    let mut sheet_3 = [0u8; PRACTICE_BYTES];
    let mut sheet_4 = [0u8; PRACTICE_BYTES];
    // no group goes beyond the last seed
    let one = practice_hall(seed, &mut sheet_1);
    let two = practice_hall(seed.wrapping_add(1), &mut sheet_2);
    let three = practice_hall(seed.wrapping_add(2), &mut sheet_3);
    let four = practice_hall(seed.wrapping_add(3), &mut sheet_4);
    print!(rt; "S {seed}")?;
    group_case::plan(rt, limit, halls, [one, two, three, four])
}

// The payload holds the limit, the number of halls, the first seed and how many groups there are.
pub fn answer(rt: &HostRuntime, payload: &[u8]) -> io::Result<()> {
    let mut range = [0u32; 4];
    cases::numbers(payload, &mut range);
    let [limit, halls, first, count] = range;
    for i in 0..count {
        answer_group(rt, limit, halls, first.wrapping_add(i.wrapping_mul(4)))?;
    }
    Ok(())
}
