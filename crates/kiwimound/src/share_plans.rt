// The call of `shares`.
ghost use Rattle.std.specs.Prelude.{◌≡◌, ◌||◌};
ghost use Rattle.checks.specs.Sheet.{sheet_of};
ghost use Rattle.planning.specs.Problem.{listing_of, words_for};
ghost use Rattle.planning.specs.Planning.{short_plan, short_placing, listing_after, placing_after};
ghost use Rattle.shares.specs.Shares.{share_problem, share_refusal, share_answer};

use shares::SharePlanned;

// Plans a sheet whose rations are cut to the greatest share that has a sound placing, with both buffers lent.
#[unsafe(no_mangle)]
pub extern "C" fn kiwimound_plan_share(
    b: &[u8],
    listing: &mut [u8],
    placing: &mut [u64],
) -> SharePlanned
    ensures value { result ≡ share_answer (share_refusal b.now (short_plan listing.old || short_placing placing.old)) (sheet_of b.now) }
    ensures listing_bytes { listing.new ≡ listing_after (share_refusal b.now (short_plan listing.old || short_placing placing.old)) (listing_of (share_problem (sheet_of b.now))) listing.old }
    ensures placing_bytes { placing.new ≡ placing_after (share_refusal b.now (short_plan listing.old || short_placing placing.old)) (words_for (share_problem (sheet_of b.now))) placing.old }
{
    shares::plan_share(b, listing, placing)
}
