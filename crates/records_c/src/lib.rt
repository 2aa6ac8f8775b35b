// The calls of `records` under their C names, for a program in C or Rust to link (include/kiwimound.h). C callers know
// the archive as librecords.a (bindings/library records).
//
// A crate is a library or a static library, and `demands` stands on `records`: so each call here forwards to the one of
// the same name there, asks nothing of its caller and carries the same promise. A slice is a pointer and then a length.
#![tactic(auto)]

ghost use Rattle.std.specs.Prelude.{◌≡◌, ◌||◌, length};
ghost use Rattle.sheet.specs.Calls.{write_refusal_for, written_of, buffer_after};
ghost use Rattle.questions.specs.Calls.{bounds_for, shortfall_for};
ghost use Rattle.planning.specs.Problem.{alone, listing_of, words_for};
ghost use Rattle.planning.specs.Planning.{plan_refusal_for, short_plan, short_placing};
ghost use Rattle.planning.specs.Planning.{listed_answer, listing_after, placing_after};
ghost use Rattle.records.specs.Records.{record_sheet, record_faults};

use planning::Planned;
use questions::{BoundsAnswer, ShortfallAnswer};
use records::Ration;
use sheet::Written;

// Writes a sheet from its head line's numbers and a record for each ration: number 0 and the length of the sheet, whose
// bytes stand at the front of `out`; or the number and the line of the first refusal, and `out` as it was. Bytes of
// `out` after the sheet keep their values.
#[unsafe(no_mangle)]
pub extern "C" fn kiwimound_write_rations(
    slots: u32,
    blowers: u32,
    wake: u32,
    rations: &[Ration],
    out: &mut [u8],
) -> Written
    ensures { (result ≡ written_of
        (write_refusal_for (record_faults (record_sheet slots blowers wake rations.now))
        (record_sheet slots blowers wake rations.now) (length out.old))
        (record_sheet slots blowers wake rations.now))
        × (out.new ≡ buffer_after
        (write_refusal_for (record_faults (record_sheet slots blowers wake rations.now))
        (record_sheet slots blowers wake rations.now) (length out.old))
        (record_sheet slots blowers wake rations.now) out.old) }
{
    records::kiwimound_write_rations(slots, blowers, wake, rations, out)
}

// Plans the day of a record for each ration, with a plan buffer lent: what `planning::plan` answers and writes for the
// sheet that these records make, and nothing written on any refusal but 12.
#[unsafe(no_mangle)]
pub extern "C" fn kiwimound_plan_rations(
    slots: u32,
    blowers: u32,
    wake: u32,
    rations: &[Ration],
    listing: &mut [u8],
) -> Planned
    ensures { (result ≡ listed_answer
        (plan_refusal_for (record_faults (record_sheet slots blowers wake rations.now))
        (record_sheet slots blowers wake rations.now) (short_plan listing.old))
        (listing_of (alone (record_sheet slots blowers wake rations.now))))
        × (listing.new ≡ listing_after
        (plan_refusal_for (record_faults (record_sheet slots blowers wake rations.now))
        (record_sheet slots blowers wake rations.now) (short_plan listing.old))
        (listing_of (alone (record_sheet slots blowers wake rations.now))) listing.old) }
{
    records::kiwimound_plan_rations(slots, blowers, wake, rations, listing)
}

// Plans the day of a record for each ration, with a plan buffer and a placing buffer lent: what `planning::plan_both`
// answers and writes for the sheet that these records make, and nothing written on any refusal but 12.
#[unsafe(no_mangle)]
pub extern "C" fn kiwimound_plan_rations_both(
    slots: u32,
    blowers: u32,
    wake: u32,
    rations: &[Ration],
    listing: &mut [u8],
    placing: &mut [u64],
) -> Planned
    ensures { (result ≡ listed_answer
        (plan_refusal_for (record_faults (record_sheet slots blowers wake rations.now))
        (record_sheet slots blowers wake rations.now) (short_plan listing.old || short_placing placing.old))
        (listing_of (alone (record_sheet slots blowers wake rations.now))))
        × (listing.new ≡ listing_after
        (plan_refusal_for (record_faults (record_sheet slots blowers wake rations.now))
        (record_sheet slots blowers wake rations.now) (short_plan listing.old || short_placing placing.old))
        (listing_of (alone (record_sheet slots blowers wake rations.now))) listing.old)
        × (placing.new ≡ placing_after
        (plan_refusal_for (record_faults (record_sheet slots blowers wake rations.now))
        (record_sheet slots blowers wake rations.now) (short_plan listing.old || short_placing placing.old))
        (words_for (alone (record_sheet slots blowers wake rations.now))) placing.old) }
{
    records::kiwimound_plan_rations_both(slots, blowers, wake, rations, listing, placing)
}

// The shortfall of the marked slots of the day of a record for each ration: what `questions::shortfall` answers to the
// sheet that these records make.
#[unsafe(no_mangle)]
pub extern "C" fn kiwimound_shortfall_rations(
    slots: u32,
    blowers: u32,
    wake: u32,
    rations: &[Ration],
    marks: &[u8],
) -> ShortfallAnswer
    ensures { result ≡ shortfall_for (record_faults (record_sheet slots blowers wake rations.now))
        (record_sheet slots blowers wake rations.now) marks.now }
{
    records::kiwimound_shortfall_rations(slots, blowers, wake, rations, marks)
}

// The bounds question on the day of a record for each ration: what `questions::bounds` answers to the sheet that these
// records make.
#[unsafe(no_mangle)]
pub extern "C" fn kiwimound_bounds_rations(
    slots: u32,
    blowers: u32,
    wake: u32,
    rations: &[Ration],
    lows: &[u32],
    highs: &[u32],
) -> BoundsAnswer
    ensures { result ≡ bounds_for (record_faults (record_sheet slots blowers wake rations.now))
        (record_sheet slots blowers wake rations.now) lows.now highs.now }
{
    records::kiwimound_bounds_rations(slots, blowers, wake, rations, lows, highs)
}
