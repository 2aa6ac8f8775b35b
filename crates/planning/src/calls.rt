// The planning calls. Each over a sheet's bytes reads them and hands what was read, an accepted sheet or its refusal,
// to the function that plans it; the calls on records hand over what they read themselves.
ghost use Rattle.std.specs.Prelude.{◌≡◌, false, is_err, ◌||◌, ◌≤◌, length, replicate};
ghost use Rattle.common.specs.Buffers.{padded};
ghost use Rattle.checks.specs.Limits.{max_slots};
ghost use Rattle.checks.specs.Sheet.{sheet_of};
ghost use Rattle.sheet.specs.FeedSheets.{sheet_reading, as_reading};
ghost use Rattle.stretches.specs.Days.{SomeHighs};
ghost use Rattle.plan_lines.specs.Sizes.{plan_bytes};
ghost use Rattle.planning.specs.Problem.{alone, listing_of, words_for};
ghost use Rattle.planning.specs.Planning.{plan_refusal, short_plan, short_placing, listed_answer, unlisted_answer, listing_after, placing_after};
ghost use Rattle.planning.specs.Clauses.{DayFound, DayFoundUnder, SomeDay, DayListed, NumberOf, ReadListed, ReadPlaced, HighsIfRead, ReadUnder, ReadBoth, ReadNumbered, as_planned, as_planned_day};

use crate::{Planned, PlannedDay};
use checks::{Fault, Refusal};
use listing::{held, placing_words, plan_listing};
use plan_lines::sizes::{PLACING_WORDS, PLAN_BYTES};
use sheet::FeedSheet;
use stretches::{DayPlan, HeldDay};

// A refusal has no listing.
impl From<Result<Planned, Refusal>> for Planned {
    ghost from_gives = { λ found planned. planned ≡ as_planned found };

    fn from(found: Result<Planned, Refusal>) -> Planned {
        match found {
            Ok(planned) => planned,
            Err(refusal) => Planned {
                number: refusal.number,
                line: refusal.line,
                length: 0,
            },
        }
    }
}

// At a refusal no blower is busy in any slot.
impl From<Result<PlannedDay, Refusal>> for PlannedDay {
    ghost from_gives = { λ found day. day ≡ as_planned_day found };

    fn from(found: Result<PlannedDay, Refusal>) -> PlannedDay {
        match found {
            Ok(day) => day,
            Err(refusal) => PlannedDay {
                planned: Planned::from(Err(refusal)),
                counts: [0u8; 96],
            },
        }
    }
}

// The highs of a sheet planned alone: all its blowers in each of its slots.
fn full_highs(sheet: &FeedSheet) -> [u8; 96]
    ensures { result ≡ padded max_slots (replicate sheet.now.slots sheet.now.blowers) }
{
    let mut highs = [0u8; 96];
    placing::held::set_highs(&mut highs, sheet.slots as usize, sheet.blowers as u8);
    highs
}

// The day of a sheet under a high for each slot.
fn day_under(sheet: &FeedSheet, highs: &[u8; 96]) -> Result<DayPlan, HeldDay>
    requires { SomeHighs sheet.now.slots sheet.now.blowers highs.now }
    ensures { DayFoundUnder (sheet_reading sheet.now) highs.now result }
{
    stretches::plan_day(
        sheet.slots as usize,
        sheet.blowers as u8,
        sheet.rations as usize,
        &sheet.numbers,
        highs,
    )
}

// The day of a sheet.
pub fn day_of(sheet: &FeedSheet) -> Result<DayPlan, HeldDay>
    ensures { DayFound (sheet_reading sheet.now) result }
{
    day_under(sheet, &full_highs(sheet))
}

// Writes the listing of a day, planned or held, and answers its length.
fn list_day(sheet: &FeedSheet, day: &Result<DayPlan, HeldDay>, out: &mut [u8]) -> usize
    requires { SomeDay (sheet_reading sheet.now) day.now × (plan_bytes ≤ length out.old) }
    ensures { DayListed (sheet_reading sheet.now) day.now out.old out.new result }
{
    let slots = sheet.slots as usize;
    match day {
        Ok(plan) => plan_listing::put_plan(
            out,
            slots,
            sheet.blowers,
            sheet.wake,
            &plan.counts,
            &sheet.numbers,
            &plan.fed,
        ),
        Err(shown) => held::put_held(out, slots, &shown.marks, shown.forced, shown.capacity),
    }
}

// The number of a day: it was planned, or held for want of blowers. A held day is no refusal here: its listing is
// written too. No `From` may stand here: the types are those of other crates.
fn number_of(day: &Result<DayPlan, HeldDay>) -> u32
    ensures { result ≡ NumberOf (is_err day.now) }
{
    match day {
        Ok(_) => 0,
        Err(_) => Fault::Placing as u32,
    }
}

// Plans a sheet and writes its listing.
fn plan_listed(sheet: Result<FeedSheet, Refusal>, listing: &mut [u8]) -> Result<Planned, Refusal>
    ensures { ReadListed (as_reading sheet) listing.old listing.new (as_planned result) }
{
    let sheet = sheet?;
    if listing.len() < PLAN_BYTES {
        return Err(Fault::Buffer.on(0));
    }
    let day = day_of(&sheet);
    let length = list_day(&sheet, &day, listing);
    Ok(Planned {
        number: number_of(&day),
        line: 0,
        length,
    })
}

// Plans a sheet that was read, with a plan buffer lent.
pub fn plan_of(sheet: Result<FeedSheet, Refusal>, listing: &mut [u8]) -> Planned
    ensures { ReadListed (as_reading sheet) listing.old listing.new result }
{
    Planned::from(plan_listed(sheet, listing))
}

// Plans a sheet and writes its placing.
fn plan_placed(sheet: Result<FeedSheet, Refusal>, placing: &mut [u64]) -> Result<Planned, Refusal>
    ensures { ReadPlaced (as_reading sheet) placing.old placing.new (as_planned result) }
{
    let sheet = sheet?;
    if placing.len() < PLACING_WORDS {
        return Err(Fault::Buffer.on(0));
    }
    let day = day_of(&sheet);
    placing_words::put_words(placing, &stretches::fed_words(&day));
    Ok(Planned {
        number: number_of(&day),
        line: 0,
        length: 0,
    })
}

// With a placing buffer lent.
pub fn plan_placing_of(sheet: Result<FeedSheet, Refusal>, placing: &mut [u64]) -> Planned
    ensures { ReadPlaced (as_reading sheet) placing.old placing.new result }
{
    Planned::from(plan_placed(sheet, placing))
}

// Plans a sheet under a high for each slot, and writes its listing and its placing.
fn plan_sheet(
    sheet: &FeedSheet,
    highs: &[u8; 96],
    listing: &mut [u8],
    placing: &mut [u64],
) -> Result<PlannedDay, Refusal>
    requires { SomeHighs sheet.now.slots sheet.now.blowers highs.now }
    ensures { ReadUnder (sheet_reading sheet.now) highs.now listing.old listing.new placing.old placing.new (as_planned_day result) }
{
    if listing.len() < PLAN_BYTES || placing.len() < PLACING_WORDS {
        return Err(Fault::Buffer.on(0));
    }
    let day = day_under(sheet, highs);
    placing_words::put_words(placing, &stretches::fed_words(&day));
    let length = list_day(sheet, &day, listing);
    let planned = Planned {
        number: number_of(&day),
        line: 0,
        length,
    };
    Ok(PlannedDay {
        planned,
        counts: stretches::busy_counts(&day),
    })
}

// Plans what was read under a high for each slot.
fn plan_read(
    sheet: Result<FeedSheet, Refusal>,
    highs: &[u8; 96],
    listing: &mut [u8],
    placing: &mut [u64],
) -> Result<PlannedDay, Refusal>
    requires { HighsIfRead (as_reading sheet) highs.now }
    ensures { ReadUnder (as_reading sheet) highs.now listing.old listing.new placing.old placing.new (as_planned_day result) }
{
    let sheet = sheet?;
    plan_sheet(&sheet, highs, listing, placing)
}

// Plans a sheet that was read under a high for each slot, with both buffers lent.
pub fn plan_under(
    sheet: Result<FeedSheet, Refusal>,
    highs: &[u8; 96],
    listing: &mut [u8],
    placing: &mut [u64],
) -> PlannedDay
    requires { HighsIfRead (as_reading sheet) highs.now }
    ensures { ReadUnder (as_reading sheet) highs.now listing.old listing.new placing.old placing.new result }
{
    PlannedDay::from(plan_read(sheet, highs, listing, placing))
}

// The highs of what was read, planned alone; a refusal has no slot.
fn read_highs(sheet: &Result<FeedSheet, Refusal>) -> [u8; 96]
    ensures { result ≡ padded max_slots (replicate (as_reading sheet.now).slots (as_reading sheet.now).blowers) }
{
    match sheet {
        Ok(sheet) => full_highs(sheet),
        Err(_) => [0u8; 96],
    }
}

// With both buffers lent.
pub fn plan_both_of(
    sheet: Result<FeedSheet, Refusal>,
    listing: &mut [u8],
    placing: &mut [u64],
) -> Planned
    ensures { ReadBoth (as_reading sheet) listing.old listing.new placing.old placing.new result }
{
    let highs = read_highs(&sheet);
    plan_under(sheet, &highs, listing, placing).planned
}

// Plans what was read, and writes nothing.
fn plan_numbered(sheet: Result<FeedSheet, Refusal>) -> Result<Planned, Refusal>
    ensures { ReadNumbered (as_reading sheet) (as_planned result) }
{
    let sheet = sheet?;
    Ok(Planned {
        number: number_of(&day_of(&sheet)),
        line: 0,
        length: 0,
    })
}

// With no buffer lent: the number and the line alone.
pub fn plan_number_of(sheet: Result<FeedSheet, Refusal>) -> Planned
    ensures { ReadNumbered (as_reading sheet) result }
{
    Planned::from(plan_numbered(sheet))
}

// Plans a sheet, with a plan buffer lent: number 0 and the length of the listing of the plan, or 12 and that of the
// listing of the held sheet, at the front of `listing`, whose other bytes keep their values; or the number and the line
// of the first other refusal, and nothing written.
pub fn plan(b: &[u8], listing: &mut [u8]) -> Planned
    ensures value { result ≡ listed_answer (plan_refusal b.now (short_plan listing.old)) (listing_of (alone (sheet_of b.now))) }
    ensures listing_bytes { listing.new ≡ listing_after (plan_refusal b.now (short_plan listing.old)) (listing_of (alone (sheet_of b.now))) listing.old }
{
    plan_of(sheet::read_sheet(b), listing)
}

// Plans a sheet, with a placing buffer lent: the number and the line as `plan` gives them, and length 0; the word of
// each of 96 slots at the front of `placing`, all 0 where the sheet is held for want of blowers, and nothing written on
// any other refusal.
pub fn plan_placing(b: &[u8], placing: &mut [u64]) -> Planned
    ensures value { result ≡ unlisted_answer (plan_refusal b.now (short_placing placing.old)) }
    ensures placing_bytes { placing.new ≡ placing_after (plan_refusal b.now (short_placing placing.old)) (words_for (alone (sheet_of b.now))) placing.old }
{
    plan_placing_of(sheet::read_sheet(b), placing)
}

// Plans a sheet, with both buffers lent.
pub fn plan_both(b: &[u8], listing: &mut [u8], placing: &mut [u64]) -> Planned
    ensures value { result ≡ listed_answer (plan_refusal b.now (short_plan listing.old || short_placing placing.old)) (listing_of (alone (sheet_of b.now))) }
    ensures listing_bytes { listing.new ≡ listing_after (plan_refusal b.now (short_plan listing.old || short_placing placing.old)) (listing_of (alone (sheet_of b.now))) listing.old }
    ensures placing_bytes { placing.new ≡ placing_after (plan_refusal b.now (short_plan listing.old || short_placing placing.old)) (words_for (alone (sheet_of b.now))) placing.old }
{
    plan_both_of(sheet::read_sheet(b), listing, placing)
}

// Plans a sheet with no buffer lent: the number and the line alone.
pub fn plan_number(b: &[u8]) -> Planned
    ensures { result ≡ unlisted_answer (plan_refusal b.now false) }
{
    plan_number_of(sheet::read_sheet(b))
}
