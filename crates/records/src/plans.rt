// Planning from records.
ghost use Rattle.std.specs.Prelude.{◌≡◌};
ghost use Rattle.planning.specs.Problem.{alone, listing_of};
ghost use Rattle.planning.specs.Planning.{plan_refusal_for, short_plan, listed_answer, listing_after};
ghost use Rattle.records.specs.Records.{record_sheet, record_faults};

use crate::{Ration, readings};
use planning::Planned;

// Plans the day of a record for each ration, with a plan buffer lent: what `planning::plan` answers and writes for the
// sheet that these records make, and nothing written on any refusal but 12.
#[unsafe(no_mangle)]
pub extern "C" fn kiwimound_plan_rations(
    slots: u32,
    blowers: u32,
    wake: u32,
    rations: &[Ration],
    listing: &mut [u8],
) -> Planned
    ensures { (result ≡ listed_answer (plan_refusal_for (record_faults (record_sheet slots blowers wake rations.now)) (record_sheet slots blowers wake rations.now) (short_plan listing.old)) (listing_of (alone (record_sheet slots blowers wake rations.now))))
        × (listing.new ≡ listing_after (plan_refusal_for (record_faults (record_sheet slots blowers wake rations.now)) (record_sheet slots blowers wake rations.now) (short_plan listing.old)) (listing_of (alone (record_sheet slots blowers wake rations.now))) listing.old) }
{
    let sheet = readings::read_rations(slots, blowers, wake, rations);
    planning::plan_of(sheet, listing)
}
