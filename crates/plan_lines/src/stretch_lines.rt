// The stretch lines of a plan, by blower from 1, then slot: blower, first, last, state.
ghost use Rattle.plan_lines.specs.Lines.{blower_lines, stretch_lines};
ghost use Rattle.plan_lines.specs.Putting.{Put, Room};
ghost use Rattle.plan_lines.specs.StretchSteps.{CanPutStretches};

use energy::CountedDay;
use line::layout::LINE;

// Writes the stretch lines of one blower from a place of out on, and answers how many.
fn put_blower(out: &mut [u8], at: usize, day: &CountedDay<'_>, blower: u32) -> usize
    requires { Room (blower_lines day.now.wake day.now.counts.now blower) at out.old }
    ensures { Put (blower_lines day.now.wake day.now.counts.now blower) at out.old out.new result }
{
    // counted, since it is the answer too
    let mut n = 0;
    for stretch in day.stretches(blower) {
        line::put_line(
            out,
            at + LINE * n,
            stretch.blower,
            stretch.first as u32,
            stretch.last as u32,
            u32::from(stretch.state),
        );
        n += 1;
    }
    n
}

// Writes the stretch lines of all blowers from a place of out on, and answers how many. It costs one pass over the
// slots for each blower.
pub fn put_stretches(out: &mut [u8], at: usize, day: &CountedDay<'_>, blowers: u32) -> usize
    requires { CanPutStretches out.old at blowers day.now.wake day.now.counts.now }
    ensures { Put (stretch_lines blowers day.now.wake day.now.counts.now) at out.old out.new result }
{
    let mut n = 0;
    for blower in 1..=blowers {
        n += put_blower(out, at + LINE * n, day, blower);
    }
    n
}
