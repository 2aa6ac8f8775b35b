// The call that lists causes.
ghost use Rattle.std.specs.Prelude.{◌≡◌};
ghost use Rattle.checks.specs.Sheet.{sheet_of};
ghost use Rattle.planning.specs.Problem.{alone};
ghost use Rattle.planning.specs.Planning.{plan_refusal};
ghost use Rattle.causes.specs.CauseCalls.{endings_of, short_causes, causes_answer, causes_after, as_causes, Answered};

use crate::CausesAnswer;
use cause_lines::Extent;
use checks::{Fault, Refusal};
use plan_lines::sizes::CAUSES_BYTES;

// Lists the causes of the day of a sheet's bytes; a day that is held is refused too.
fn list_extent(b: &[u8], out: &mut [u8]) -> Result<Extent, Refusal>
    ensures { Answered (plan_refusal b.now (short_causes out.old)) (endings_of (alone (sheet_of b.now))) out.old out.new (as_causes result) }
{
    let sheet = sheet::read_sheet(b)?;
    if out.len() < CAUSES_BYTES {
        return Err(Fault::Buffer.on(0));
    }
    let extent = endings::list_day(
        sheet.slots as usize,
        sheet.blowers as u8,
        sheet.rations as usize,
        &sheet.numbers,
        out,
    );
    extent.ok_or(Fault::Placing.on(0))
}

// A refusal has no listing.
impl From<Result<Extent, Refusal>> for CausesAnswer {
    ghost from_gives = { λ extent answer. answer ≡ as_causes extent };

    fn from(extent: Result<Extent, Refusal>) -> CausesAnswer {
        match extent {
            Ok(extent) => CausesAnswer {
                number: 0,
                line: 0,
                length: extent.length,
                cut: extent.cut,
            },
            Err(refusal) => CausesAnswer {
                number: refusal.number,
                line: refusal.line,
                length: 0,
                cut: false,
            },
        }
    }
}

// Lists why each stretch of a sheet's plan ends where it does, at the front of `out`, whose other bytes keep their
// values: for a whole day planned alone. Number and line are those of planning, with 10 for a buffer under 65,536
// bytes; on 12, as on any other refusal, nothing is written. No feeding is chosen.
pub fn list_causes(b: &[u8], out: &mut [u8]) -> CausesAnswer
    ensures value { result ≡ causes_answer (plan_refusal b.now (short_causes out.old)) (endings_of (alone (sheet_of b.now))) }
    ensures out_bytes { out.new ≡ causes_after (plan_refusal b.now (short_causes out.old)) (endings_of (alone (sheet_of b.now))) out.old }
{
    CausesAnswer::from(list_extent(b, out))
}
