// One entry of the causes' listing, and the listing with one entry more.
ghost use Rattle.std.specs.Prelude.{◌≡◌};
ghost use Rattle.placing.specs.CauseCalls.{number_of};
ghost use Rattle.cause_lines.specs.EntryCalls.{CanPutEntry, EntryPut, CanAppend, Appended};

use crate::{CausedStretch, Extent, SlotWords, slot_lines};
use line::layout::LINE;
use placing::Cause;
use plan_lines::sizes::CAUSES_BYTES;

// The cause's number, for the line of an entry alone: a `From` in the crate `placing`, whose enum it is, would be this
// `match` in another place.
fn number_of(cause: Cause) -> u32
    ensures { result ≡ number_of cause }
{
    match cause {
        Cause::LowAboveHigh(_) => 3,
        Cause::Shortfall(_, _) => 1,
        Cause::Excess(_, _) => 2,
    }
}

// Writes the entry of a stretch at a place of out. The words have the slots of its cause, and count is their number.
fn put_entry(out: &mut [u8], at: usize, s: CausedStretch, words: SlotWords, count: usize)
    requires { CanPutEntry out.old at s words count }
    ensures { EntryPut at s words count out.old out.new }
{
    let CausedStretch {
        blower,
        last,
        cause,
        ..
    } = s;
    let number = number_of(cause);
    line::put_line(out, at, blower as u32, last as u32, number, count as u32);
    let SlotWords { first, second } = words;
    let n = slot_lines::put_slots(out, at + LINE, 0, first);
    slot_lines::put_slots(out, at + LINE + LINE * n, 64, second);
}

// Writes the entry of a stretch behind those listed so far, if it fits and all before it did.
pub fn append(out: &mut [u8], slots: usize, so_far: Extent, s: CausedStretch) -> Extent
    requires { CanAppend out.old slots so_far s }
    ensures { Appended result slots so_far s out.old out.new }
{
    if so_far.cut {
        return so_far;
    }
    let words = slot_lines::slots_of(s.cause, slots);
    let count = (words.first.count_ones() + words.second.count_ones()) as usize;
    let at = so_far.length;
    let size = LINE * (count + 1);
    if CAUSES_BYTES - at < size {
        return Extent {
            length: at,
            cut: true,
        };
    }
    put_entry(out, at, s, words, count);
    Extent {
        length: at + size,
        cut: false,
    }
}
