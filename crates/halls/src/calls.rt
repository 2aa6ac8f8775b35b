// The call that plans halls: hall after hall by thin functions, so that every hall's answer and buffers are an equation
// of their own; what is used so far goes from one to the next. The halls are parameters of their own and no slice,
// since `kiwimound_plan_halls` hands over what C lends it for each.
ghost use Rattle.std.specs.Prelude.{◌≡◌, IfOk};
ghost use Rattle.common.specs.Buffers.{padded};
ghost use Rattle.checks.specs.Limits.{max_slots};
ghost use Rattle.checks.specs.Verdicts.{verdict};
ghost use Rattle.hall_uses.specs.Uses.{hall_high};
ghost use Rattle.halls.specs.Halls.{nothing, lent, four, halls_refusal, outcome_of, halls_answer};
ghost use Rattle.halls.specs.Clauses.{Used, HallDone, HallDoneIf, refused_halls};

use crate::{HallPlanned, HallsPlanned};
use checks::{Fault, Refusal};
use planning::Planned;
use sheet::FeedSheet;

const MAX_LIMIT: u32 = 32;

const MAX_HALLS: u32 = 4;

// The highs that a limit leaves to the sheet that was read; one that was refused needs none.
fn highs_left(limit: u8, used: &[u8; 96], sheet: &Result<FeedSheet, Refusal>) -> [u8; 96]
    ensures { IfOk sheet.now (λ f. result ≡ padded max_slots (hall_high limit used.now f.slots f.blowers)) }
{
    match sheet {
        Ok(sheet) => {
            hall_uses::hall_highs(limit, used, sheet.slots as usize, sheet.blowers as u8)
        }
        Err(_) => [0u8; 96],
    }
}

// Plans one hall under what earlier halls use.
fn plan_hall(
    limit: u8,
    used: &[u8; 96],
    b: &[u8],
    listing: &mut [u8],
    placing: &mut [u64],
) -> HallPlanned
    requires { Used limit used.now }
    ensures { HallDone limit used.now (lent b.now listing.old placing.old) result listing.new placing.new }
{
    let sheet = sheet::read_sheet(b);
    let highs = highs_left(limit, used, &sheet);
    let day = planning::plan_under(sheet, &highs, listing, placing);
    HallPlanned {
        planned: day.planned,
        used: hall_uses::add_used(used, &day.counts),
    }
}

// A hall that is there is planned; one that is not is left as it was lent. A function of its own, since what a hall
// uses after an `if` within `plan_halls` is lost to the proof of the next one.
fn plan_hall_if(
    there: bool,
    limit: u8,
    used: &[u8; 96],
    b: &[u8],
    listing: &mut [u8],
    placing: &mut [u64],
) -> HallPlanned
    requires { Used limit used.now }
    ensures { HallDoneIf «there» limit used.now (lent b.now listing.old placing.old) result listing.new placing.new }
{
    if there {
        return plan_hall(limit, used, b, listing, placing);
    }
    HallPlanned {
        planned: no_answer(),
        used: *used,
    }
}

// The answer of a hall that is not planned.
fn no_answer() -> Planned
    ensures { result ≡ nothing }
{
    Planned {
        number: 0,
        line: 0,
        length: 0,
    }
}

// 14: the limit is outside 1 to 32, or the halls outside 1 to 4.
fn check_halls(limit: u32, halls: u32) -> Result<(), Refusal>
    ensures { result ≡ verdict (halls_refusal limit halls) }
{
    if !(1..=MAX_LIMIT).contains(&limit) || !(1..=MAX_HALLS).contains(&halls) {
        return Err(Fault::Halls.on(0));
    }
    Ok(())
}

// A refusal plans no hall.
impl From<Refusal> for HallsPlanned {
    ghost from_gives = { λ refusal planned. planned ≡ refused_halls refusal };

    fn from(refusal: Refusal) -> HallsPlanned {
        let none = no_answer();
        HallsPlanned {
            number: refusal.number,
            line: refusal.line,
            first: none,
            second: none,
            third: none,
            fourth: none,
        }
    }
}

// Plans so many halls in list order, with the busy blowers of all of them in a slot at most the limit; a hall that is
// not there is not looked at. The answer has number and line 0 and each hall's own answer, or number 14 and nothing is
// planned. A hall has number 0 or 12, with the length of the listing in its plan buffer and 96 words in its placing
// buffer, or the number and the line of its first other refusal, with nothing written. One that is refused by any
// number uses no blower, and the halls after it are planned all the same.
pub fn plan_halls(
    limit: u32,
    halls: u32,
    sheet_1: &[u8],
    listing_1: &mut [u8],
    placing_1: &mut [u64],
    sheet_2: &[u8],
    listing_2: &mut [u8],
    placing_2: &mut [u64],
    sheet_3: &[u8],
    listing_3: &mut [u8],
    placing_3: &mut [u64],
    sheet_4: &[u8],
    listing_4: &mut [u8],
    placing_4: &mut [u64],
) -> HallsPlanned
    ensures value { result ≡ halls_answer limit halls (four
        (lent sheet_1.now listing_1.old placing_1.old)
        (lent sheet_2.now listing_2.old placing_2.old)
        (lent sheet_3.now listing_3.old placing_3.old)
        (lent sheet_4.now listing_4.old placing_4.old)) }
    ensures hall_1 { record { listing = listing_1.new; placing = placing_1.new } ≡ (outcome_of limit halls (four
        (lent sheet_1.now listing_1.old placing_1.old)
        (lent sheet_2.now listing_2.old placing_2.old)
        (lent sheet_3.now listing_3.old placing_3.old)
        (lent sheet_4.now listing_4.old placing_4.old)) 0).buffers }
    ensures hall_2 { record { listing = listing_2.new; placing = placing_2.new } ≡ (outcome_of limit halls (four
        (lent sheet_1.now listing_1.old placing_1.old)
        (lent sheet_2.now listing_2.old placing_2.old)
        (lent sheet_3.now listing_3.old placing_3.old)
        (lent sheet_4.now listing_4.old placing_4.old)) 1).buffers }
    ensures hall_3 { record { listing = listing_3.new; placing = placing_3.new } ≡ (outcome_of limit halls (four
        (lent sheet_1.now listing_1.old placing_1.old)
        (lent sheet_2.now listing_2.old placing_2.old)
        (lent sheet_3.now listing_3.old placing_3.old)
        (lent sheet_4.now listing_4.old placing_4.old)) 2).buffers }
    ensures hall_4 { record { listing = listing_4.new; placing = placing_4.new } ≡ (outcome_of limit halls (four
        (lent sheet_1.now listing_1.old placing_1.old)
        (lent sheet_2.now listing_2.old placing_2.old)
        (lent sheet_3.now listing_3.old placing_3.old)
        (lent sheet_4.now listing_4.old placing_4.old)) 3).buffers }
{
    if let Err(refusal) = check_halls(limit, halls) {
        return HallsPlanned::from(refusal);
    }
    let most = limit as u8;
    let none = [0u8; 96];
    let hall_1 = plan_hall(most, &none, sheet_1, listing_1, placing_1);
    let used_1 = hall_1.used;
    let hall_2 = plan_hall_if(2 <= halls, most, &used_1, sheet_2, listing_2, placing_2);
    let used_2 = hall_2.used;
    let hall_3 = plan_hall_if(3 <= halls, most, &used_2, sheet_3, listing_3, placing_3);
    let used_3 = hall_3.used;
    let hall_4 = plan_hall_if(4 <= halls, most, &used_3, sheet_4, listing_4, placing_4);
    let first = hall_1.planned;
    let second = hall_2.planned;
    let third = hall_3.planned;
    let fourth = hall_4.planned;
    HallsPlanned {
        number: 0,
        line: 0,
        first,
        second,
        third,
        fourth,
    }
}
