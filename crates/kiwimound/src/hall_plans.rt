// The call of `halls`.
ghost use Rattle.std.specs.Prelude.{◌≡◌};
ghost use Rattle.halls.specs.Halls.{lent, four, outcome_of, halls_answer};

use halls::HallsPlanned;

// Plans up to four halls that share a limit on the busy blowers of a slot.
#[unsafe(no_mangle)]
pub extern "C" fn kiwimound_plan_halls(
    limit: u32,
    halls: u32,
    sheet_1: &[u8],
    listing_1: &mut [u8],
    placing_1: &mut [u64],
    sheet_2: &[u8],
    listing_2: &mut [u8],
    placing_2: &mut [u64],
    sheet_3: &[u8],
    listing_3: &mut [u8],
    placing_3: &mut [u64],
    sheet_4: &[u8],
    listing_4: &mut [u8],
    placing_4: &mut [u64],
) -> HallsPlanned
    ensures value { result ≡ halls_answer limit halls (four
        (lent sheet_1.now listing_1.old placing_1.old)
        (lent sheet_2.now listing_2.old placing_2.old)
        (lent sheet_3.now listing_3.old placing_3.old)
        (lent sheet_4.now listing_4.old placing_4.old)) }
    ensures hall_1 { record { listing = listing_1.new; placing = placing_1.new } ≡ (outcome_of limit halls (four
        (lent sheet_1.now listing_1.old placing_1.old)
        (lent sheet_2.now listing_2.old placing_2.old)
        (lent sheet_3.now listing_3.old placing_3.old)
        (lent sheet_4.now listing_4.old placing_4.old)) 0).buffers }
    ensures hall_2 { record { listing = listing_2.new; placing = placing_2.new } ≡ (outcome_of limit halls (four
        (lent sheet_1.now listing_1.old placing_1.old)
        (lent sheet_2.now listing_2.old placing_2.old)
        (lent sheet_3.now listing_3.old placing_3.old)
        (lent sheet_4.now listing_4.old placing_4.old)) 1).buffers }
    ensures hall_3 { record { listing = listing_3.new; placing = placing_3.new } ≡ (outcome_of limit halls (four
        (lent sheet_1.now listing_1.old placing_1.old)
        (lent sheet_2.now listing_2.old placing_2.old)
        (lent sheet_3.now listing_3.old placing_3.old)
        (lent sheet_4.now listing_4.old placing_4.old)) 2).buffers }
    ensures hall_4 { record { listing = listing_4.new; placing = placing_4.new } ≡ (outcome_of limit halls (four
        (lent sheet_1.now listing_1.old placing_1.old)
        (lent sheet_2.now listing_2.old placing_2.old)
        (lent sheet_3.now listing_3.old placing_3.old)
        (lent sheet_4.now listing_4.old placing_4.old)) 3).buffers }
{
    halls::plan_halls(
        limit, halls, sheet_1, listing_1, placing_1, sheet_2, listing_2, placing_2, sheet_3,
        listing_3, placing_3, sheet_4, listing_4, placing_4,
    )
}
