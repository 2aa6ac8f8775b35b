// The call that plans the greatest share of a sheet's rations.
ghost use Rattle.std.specs.Prelude.{◌≡◌, ◌||◌};
ghost use Rattle.checks.specs.Sheet.{sheet_of};
ghost use Rattle.planning.specs.Problem.{listing_of, words_for};
ghost use Rattle.planning.specs.Planning.{short_plan, short_placing, listing_after, placing_after};
ghost use Rattle.shares.specs.Shares.{share_problem, share_refusal, share_answer, ShareAt, as_share};

use crate::SharePlanned;
use checks::{Fault, Refusal};
use plan_lines::sizes::{PLACING_WORDS, PLAN_BYTES};

// Plans the sheet cut to its greatest share.
fn plan_cut(b: &[u8], listing: &mut [u8], placing: &mut [u64]) -> Result<SharePlanned, Refusal>
    ensures { ShareAt (share_refusal b.now (short_plan listing.old || short_placing placing.old)) (sheet_of b.now)
        listing.old listing.new placing.old placing.new (as_share result) }
{
    let sheet = sheet::read_sheet(b)?;
    if listing.len() < PLAN_BYTES || placing.len() < PLACING_WORDS {
        return Err(Fault::Buffer.on(0));
    }
    let share = cuts::greatest_share(&sheet);
    let cut = cuts::cut_sheet(share, &sheet);
    let planned = planning::plan_both_of(Ok(cut), listing, placing);
    Ok(SharePlanned {
        number: planned.number,
        line: planned.line,
        length: planned.length,
        share,
    })
}

// A refusal plans nothing.
impl From<Result<SharePlanned, Refusal>> for SharePlanned {
    ghost from_gives = { λ found planned. planned ≡ as_share found };

    fn from(found: Result<SharePlanned, Refusal>) -> SharePlanned {
        match found {
            Ok(planned) => planned,
            Err(refusal) => SharePlanned {
                number: refusal.number,
                line: refusal.line,
                length: 0,
                share: 0,
            },
        }
    }
}

// Plans a sheet whose rations are cut to the greatest share of their volumes, from 0 to 100 hundredths, for which a
// sound placing exists: number 0, the share, the length of the listing of the cut sheet's plan at the front of
// `listing`, and its words at the front of `placing`; what is after them keeps its values. Or the number and the line
// of the first refusal of 1 to 9, 13 and 10, with nothing written and share 0. 12 is never given. It costs a plan of
// the cut sheet, and at most seven questions whether a sound placing exists.
pub fn plan_share(b: &[u8], listing: &mut [u8], placing: &mut [u64]) -> SharePlanned
    ensures value { result ≡ share_answer (share_refusal b.now (short_plan listing.old || short_placing placing.old)) (sheet_of b.now) }
    ensures listing_bytes { listing.new ≡ listing_after (share_refusal b.now (short_plan listing.old || short_placing placing.old)) (listing_of (share_problem (sheet_of b.now))) listing.old }
    ensures placing_bytes { placing.new ≡ placing_after (share_refusal b.now (short_plan listing.old || short_placing placing.old)) (words_for (share_problem (sheet_of b.now))) placing.old }
{
    SharePlanned::from(plan_cut(b, listing, placing))
}
