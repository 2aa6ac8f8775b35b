// The listing of a sheet held for want of blowers: 12, the number of slots shown, forced, capacity, then a line for
// each slot.
ghost use Rattle.std.specs.Prelude.{◌*◌, length, ltb};
ghost use Rattle.plan_lines.specs.Lines.{member_lines};
ghost use Rattle.plan_lines.specs.Text.{held_text};
ghost use Rattle.plan_lines.specs.Inputs.{set_of};
ghost use Rattle.plan_lines.specs.Putting.{Put, Room};
ghost use Rattle.listing.specs.Opening.{Written};
ghost use Rattle.listing.specs.HeldSteps.{member_of, CanPutMembers, CanPutHeld};

use crate::opening;
use checks::Fault;
use line::layout::LINE;
use plan_lines::sizes::WORD;

// Writes the line of a slot where its mark is not 0, and answers how many lines.
fn put_member(out: &mut [u8], at: usize, slot: u32, mark: u8) -> usize
    requires { Room (member_of slot (ltb 0 mark)) at out.old }
    ensures { Put (member_of slot (ltb 0 mark)) at out.old out.new result }
{
    if mark == 0 {
        return 0;
    }
    line::put_line(out, at, slot, 0, 0, 0);
    1
}

// Writes a line for each slot that is marked, of slots with a mark each, from a place of out on, and answers how many.
fn put_members(out: &mut [u8], at: usize, marks: &[u8]) -> usize
    requires { CanPutMembers out.old at (length marks.now) marks.now }
    ensures { Put (member_lines 1 (set_of (length marks.now) marks.now)) at out.old out.new result }
{
    let mut n = 0;
    for (t, mark) in marks.iter().enumerate() {
        n += put_member(out, at + LINE * n, t as u32 + 1, *mark);
    }
    n
}

// Writes the listing of a held sheet, whose set of slots is marked, and answers its length. The marks come as a day of
// crate `stretches` holds them, in an array of 96 (fixed memory); only here they are cut to the day's slots.
pub fn put_held(out: &mut [u8], slots: usize, marks: &[u8; 96], forced: u32, capacity: u32) -> usize
    requires { CanPutHeld out.old slots marks.now }
    ensures { Written (held_text (set_of slots marks.now) forced capacity) out.old out.new result }
{
    opening::put_word(out, b"HELD\n");
    let n = put_members(out, WORD + LINE, &marks[..slots]);
    line::put_line(out, WORD, Fault::Placing as u32, n as u32, forced, capacity);
    WORD + LINE * (n + 1)
}
