// The bill of a plan: its last line.
ghost use Rattle.std.specs.Prelude.{◌≡◌, [], ◌∷◌};
ghost use Rattle.common.specs.Buffers.{put_at};
ghost use Rattle.bill.specs.Bill.{charge};
ghost use Rattle.plan_lines.specs.Lines.{bill_line};
ghost use Rattle.plan_lines.specs.Text.{write_lines};
ghost use Rattle.listing.specs.PlanSteps.{CanPutBill};

use energy::CountedDay;

// Writes the bill's line at a place of out: whole hundreds of cents, remaining cents, 0, 0.
pub fn put_bill(out: &mut [u8], at: usize, day: &CountedDay<'_>, blowers: u32)
    requires { CanPutBill out.old at blowers day.now.wake }
    ensures { out.new ≡ put_at at (write_lines (bill_line (charge blowers day.now.wake day.now.counts.now) ∷ [])) out.old }
{
    let tenths = bill::day_charge(day, blowers);
    let amount = bill::amount_of(tenths);
    line::put_line(out, at, amount.hundreds, amount.remaining, 0, 0);
}
