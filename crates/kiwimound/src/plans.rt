// The calls of `planning`.
ghost use Rattle.std.specs.Prelude.{◌≡◌, false, ◌||◌};
ghost use Rattle.checks.specs.Sheet.{sheet_of};
ghost use Rattle.planning.specs.Problem.{alone, listing_of, words_for};
ghost use Rattle.planning.specs.Planning.{plan_refusal, short_plan, short_placing, listed_answer, unlisted_answer, listing_after, placing_after};

use planning::Planned;

// Plans a sheet, with a plan buffer lent.
#[unsafe(no_mangle)]
pub extern "C" fn kiwimound_plan(b: &[u8], listing: &mut [u8]) -> Planned
    ensures value { result ≡ listed_answer (plan_refusal b.now (short_plan listing.old)) (listing_of (alone (sheet_of b.now))) }
    ensures listing_bytes { listing.new ≡ listing_after (plan_refusal b.now (short_plan listing.old)) (listing_of (alone (sheet_of b.now))) listing.old }
{
    planning::plan(b, listing)
}

// Plans a sheet, with a placing buffer lent.
#[unsafe(no_mangle)]
pub extern "C" fn kiwimound_plan_placing(b: &[u8], placing: &mut [u64]) -> Planned
    ensures value { result ≡ unlisted_answer (plan_refusal b.now (short_placing placing.old)) }
    ensures placing_bytes { placing.new ≡ placing_after (plan_refusal b.now (short_placing placing.old)) (words_for (alone (sheet_of b.now))) placing.old }
{
    planning::plan_placing(b, placing)
}

// Plans a sheet, with both buffers lent.
#[unsafe(no_mangle)]
pub extern "C" fn kiwimound_plan_both(b: &[u8], listing: &mut [u8], placing: &mut [u64]) -> Planned
    ensures value { result ≡ listed_answer (plan_refusal b.now (short_plan listing.old || short_placing placing.old)) (listing_of (alone (sheet_of b.now))) }
    ensures listing_bytes { listing.new ≡ listing_after (plan_refusal b.now (short_plan listing.old || short_placing placing.old)) (listing_of (alone (sheet_of b.now))) listing.old }
    ensures placing_bytes { placing.new ≡ placing_after (plan_refusal b.now (short_plan listing.old || short_placing placing.old)) (words_for (alone (sheet_of b.now))) placing.old }
{
    planning::plan_both(b, listing, placing)
}

// Plans a sheet with no buffer lent.
#[unsafe(no_mangle)]
pub extern "C" fn kiwimound_plan_number(b: &[u8]) -> Planned
    ensures { result ≡ unlisted_answer (plan_refusal b.now false) }
{
    planning::plan_number(b)
}
