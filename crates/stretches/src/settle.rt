// The method, slot by slot.
ghost use Rattle.std.specs.Prelude.{◌≤◌, ◌<◌};
ghost use Rattle.stretches.specs.Settling.{SomeSlot, SomeDay, Kept, Stepped, Settled, AllSettled};

use placing::Words;

// Keeps blower k idle or busy in slot t + 1, if a sound placing exists with that, and says whether one does. Crate
// `endings` settles by it too. `is_busy` is no switch for a closure to replace: it is the state that `step` takes from
// the slot before and answers for the next one.
pub fn keep(words: &mut Words, t: usize, k: u8, is_busy: bool) -> bool
    requires { SomeSlot t words.old × (1 ≤ k) }
    ensures { Kept result k is_busy t words.old words.new }
{
    if is_busy {
        return words.busy(t, k);
    }
    words.idle(t, k)
}

// What blower k does in slot t + 1, after it was idle or busy: the same if a sound placing exists with it, else the
// other.
fn step(words: &mut Words, t: usize, k: u8, is_busy: bool) -> bool
    requires { SomeSlot t words.old × (1 ≤ k) }
    ensures { Stepped result k is_busy t words.old words.new }
{
    if keep(words, t, k, is_busy) {
        return is_busy;
    }
    keep(words, t, k, !is_busy);
    !is_busy
}

// Settles blower k in every slot of the day: it begins idle.
fn settle_blower(words: &mut Words, slots: usize, k: u8)
    requires { SomeDay slots words.old × (1 ≤ k) }
    ensures { Settled slots k words.old words.new }
{
    let mut is_busy = false;
    for t in 0..slots {
        is_busy = step(words, t, k, is_busy);
    }
}

// Settles all blowers, from the last down to the first. At most two questions for each blower and slot.
pub fn settle(words: &mut Words, slots: usize, blowers: u8)
    requires { SomeDay slots words.old }
    ensures { AllSettled slots blowers words.old words.new }
{
    for k in (1..=blowers).rev() {
        settle_blower(words, slots, k);
    }
}
