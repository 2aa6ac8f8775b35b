// The slots of a cause, in two words, and a line for each of them: from set bit to set bit, rising.
ghost use Rattle.std.specs.Prelude.{◌≤◌};
ghost use Rattle.plan_lines.specs.Putting.{Put};
ghost use Rattle.cause_lines.specs.SlotCalls.{bit_lines, CanPutSlots, DayWord, SlotWord, CauseWords, SlotsIn};

use crate::SlotWords;
use line::layout::LINE;
use placing::Cause;

// The word that has the bit of one slot alone, where bit j stands for slot from + 1 + j; 0 where no bit stands for it.
fn slot_word(slot: u32, from: u32) -> u64
    ensures { SlotWord result slot from }
{
    if from < slot && slot - from <= 64 {
        bits::add_bit(0, slot - from - 1)
    } else {
        0
    }
}

// The words of a cause, for a day of 96 slots.
fn words_of(cause: Cause) -> SlotWords
    ensures { CauseWords result cause }
{
    match cause {
        Cause::LowAboveHigh(slot) => SlotWords {
            first: slot_word(slot, 0),
            second: slot_word(slot, 64),
        },
        Cause::Shortfall(first, second) | Cause::Excess(first, second) => {
            SlotWords { first, second }
        }
    }
}

// Of a word whose bit j stands for slot from + 1 + j, the bits of the day's slots.
fn in_day(word: u64, from: usize, slots: usize) -> u64
    ensures { DayWord result word from slots }
{
    let n = slots.saturating_sub(from);
    if 64 <= n {
        return word;
    }
    word % (1 << n as u32)
}

// The slots of a cause, of a day of so many.
pub fn slots_of(cause: Cause, slots: usize) -> SlotWords
    requires { slots ≤ 96 }
    ensures { SlotsIn result cause slots }
{
    let SlotWords { first, second } = words_of(cause);
    SlotWords {
        first: in_day(first, 0, slots),
        second: in_day(second, 64, slots),
    }
}

// Writes a line for each bit of a word from a place of out on, where bit j stands for slot from + 1 + j, and answers
// how many.
pub fn put_slots(out: &mut [u8], at: usize, from: u32, word: u64) -> usize
    requires { CanPutSlots out.old at from word }
    ensures { Put (bit_lines from word) at out.old out.new result }
{
    // counted, since it is the answer too
    let mut n = 0;
    for j in bits::set_bits(word) {
        line::put_line(out, at + LINE * n, from + j + 1, 0, 0, 0);
        n += 1;
    }
    n
}
