// A group of halls planned: `H number line` of the call, then for each of four halls `D number line length` and the
// digests of its room of bytes and its room of words. The buffers lent are the fronts of these rooms, so that what
// comes after a buffer counts as well.
use planning::Planned;
use std::io;

// What a hall is planned with: its sheet, and how many bytes and words are lent.
#[derive(Clone, Copy)]
pub struct Hall<'a> {
    pub sheet: &'a [u8],
    pub bytes: u32,
    pub words: u32,
}

// Writes `D number line length` of a hall, and the digests of its two rooms.
fn write_hall(rt: &HostRuntime, r: Planned, bytes: &[u8], words: &[u64]) -> io::Result<()> {
    println!(rt;
        "D {} {} {} {} {}",
        r.number,
        r.line,
        r.length,
        cases::digest(bytes),
        cases::digest(words)
    )
}

// Plans the halls.
pub fn plan(rt: &HostRuntime, limit: u32, halls: u32, group: [Hall<'_>; 4]) -> io::Result<()> {
    // no case lends longer buffers
    let mut listing_1 = [0u8; 38495];
    let mut listing_2 = [0u8; 38495];
    let mut listing_3 = [0u8; 38495];
    let mut listing_4 = [0u8; 38495];
    let mut placing_1 = [0u64; 136];
    let mut placing_2 = [0u64; 136];
    let mut placing_3 = [0u64; 136];
    let mut placing_4 = [0u64; 136];
    cases::fill(&mut listing_1);
    cases::fill(&mut listing_2);
    cases::fill(&mut listing_3);
    cases::fill(&mut listing_4);
    cases::fill(&mut placing_1);
    cases::fill(&mut placing_2);
    cases::fill(&mut placing_3);
    cases::fill(&mut placing_4);
    let [one, two, three, four] = group;
    let r = halls::plan_halls(
        limit,
        halls,
        one.sheet,
        cases::front(&mut listing_1, one.bytes),
        cases::front(&mut placing_1, one.words),
        two.sheet,
        cases::front(&mut listing_2, two.bytes),
        cases::front(&mut placing_2, two.words),
        three.sheet,
        cases::front(&mut listing_3, three.bytes),
        cases::front(&mut placing_3, three.words),
        four.sheet,
        cases::front(&mut listing_4, four.bytes),
        cases::front(&mut placing_4, four.words),
    );
    println!(rt; " {} {}", r.number, r.line)?;
    write_hall(rt, r.first, &listing_1, &placing_1)?;
    write_hall(rt, r.second, &listing_2, &placing_2)?;
    write_hall(rt, r.third, &listing_3, &placing_3)?;
    write_hall(rt, r.fourth, &listing_4, &placing_4)
}

// A hall of the list's numbers: where its sheet begins, and the lengths of its sheet and of both buffers.
fn listed_hall(sheets: &[u8], numbers: [u32; 4]) -> Hall<'_> {
    let [start, length, bytes, words] = numbers;
    let sheet = cases::first_part(cases::second_part(sheets, start as usize), length as usize);
    Hall {
        sheet,
        bytes,
        words,
    }
}

pub fn answer(rt: &HostRuntime, list: &[u8], sheets: &[u8]) -> io::Result<()> {
    let mut n = [0u32; 18];
    cases::numbers(list, &mut n);
    let one = listed_hall(sheets, [n[2], n[3], n[4], n[5]]);
    let two = listed_hall(sheets, [n[6], n[7], n[8], n[9]]);
    let three = listed_hall(sheets, [n[10], n[11], n[12], n[13]]);
    let four = listed_hall(sheets, [n[14], n[15], n[16], n[17]]);
    print!(rt; "H")?;
    plan(rt, n[0], n[1], [one, two, three, four])
}
