// The listing of a plan: energy, starts and the numbers of lines, then the stretch lines, the feed lines and the bill.
ghost use Rattle.plan_lines.specs.Text.{plan_text};
ghost use Rattle.listing.specs.Opening.{Written};
ghost use Rattle.listing.specs.PlanSteps.{plan_of, CanPutPlan};

use crate::{bill_line, opening};
use energy::CountedDay;
use line::layout::LINE;
use plan_lines::sizes::WORD;
use plan_lines::{feed_lines, stretch_lines};

// Writes the listing of a plan, and answers its length. Bit j of word t says whether ration j + 1 is fed in slot t + 1,
// and its tank is number 4 * j. Counts and words come as a day of crate `stretches` holds them, in arrays of 96 (fixed
// memory); only here they are cut to the day's slots. It costs four passes over the slots for each blower, and a step
// for each slot and each feeding.
pub fn put_plan(
    out: &mut [u8],
    slots: usize,
    blowers: u32,
    wake: u32,
    counts: &[u8; 96],
    numbers: &[u32; 256],
    fed: &[u64; 96],
) -> usize
    requires { CanPutPlan out.old slots blowers wake counts.now numbers.now fed.now }
    ensures { Written (plan_text (plan_of slots blowers wake counts.now numbers.now fed.now)) out.old out.new result }
{
    let day = CountedDay {
        counts: &counts[..slots],
        wake,
    };
    opening::put_word(out, b"PLAN\n");
    let at = WORD + LINE;
    let stretches = stretch_lines::put_stretches(out, at, &day, blowers);
    let feedings = feed_lines::put_feedings(out, at + LINE * stretches, numbers, &fed[..slots]);
    let end = at + LINE * (stretches + feedings);
    bill_line::put_bill(out, end, &day, blowers);
    let used = energy::day_use(&day, blowers);
    line::put_line(
        out,
        WORD,
        used.energy,
        used.starts,
        stretches as u32,
        feedings as u32,
    );
    end + LINE
}
