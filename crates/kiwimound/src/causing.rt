// The causes of a plan's stretches.
ghost use Rattle.std.specs.Prelude.{◌≡◌};
ghost use Rattle.checks.specs.Sheet.{sheet_of};
ghost use Rattle.planning.specs.Problem.{alone};
ghost use Rattle.planning.specs.Planning.{plan_refusal};
ghost use Rattle.causes.specs.CauseCalls.{endings_of, short_causes, causes_answer, causes_after};

use causes::CausesAnswer;

// Lists why each stretch of a sheet's plan ends where it does.
#[unsafe(no_mangle)]
pub extern "C" fn kiwimound_causes(b: &[u8], out: &mut [u8]) -> CausesAnswer
    ensures value { result ≡ causes_answer (plan_refusal b.now (short_causes out.old)) (endings_of (alone (sheet_of b.now))) }
    ensures out_bytes { out.new ≡ causes_after (plan_refusal b.now (short_causes out.old)) (endings_of (alone (sheet_of b.now))) out.old }
{
    causes::list_causes(b, out)
}
