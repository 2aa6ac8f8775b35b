// The method, slot by slot, with the cause of each stretch's end. The steps go as those of `stretches::settle`, and
// stand here again: these write an entry between two slots and stop once the listing is cut, and what they promise is
// the listing; one generic pair would take both promises and all that is lent for either.
ghost use Rattle.std.specs.Prelude.{false, ◌≤◌, ◌<◌};
ghost use Rattle.stretches.specs.Settling.{SomeSlot};
ghost use Rattle.endings.specs.Steps.{KeptOrCause, StepTaken};
ghost use Rattle.endings.specs.ListingCalls.{CanAdvance, Advanced, CanList, BlowerListed, AllListed};

use crate::Progress;
use cause_lines::{CausedStretch, Extent};
use placing::{Cause, Words};

// Keeps blower k idle or busy in slot t + 1, as `stretches::keep` does and by the flag for its reason, or says why it
// can't be.
fn keep_or_cause(words: &mut Words, t: usize, k: u8, is_busy: bool) -> Result<(), Cause>
    requires { SomeSlot t words.old × (1 ≤ k) }
    ensures { KeptOrCause result k is_busy t words.old words.new }
{
    if is_busy {
        return words.busy_or_cause(t, k);
    }
    words.idle_or_cause(t, k)
}

// Blower k in slot t + 1, after it was idle or busy: whether it goes on so. If not, its stretch ends for the cause, and
// it changes over.
fn step(words: &mut Words, t: usize, k: u8, is_busy: bool) -> Result<(), Cause>
    requires { SomeSlot t words.old × (1 ≤ k) }
    ensures { StepTaken result k is_busy t words.old words.new }
{
    let Err(cause) = keep_or_cause(words, t, k, is_busy) else {
        return Ok(());
    };
    stretches::keep(words, t, k, !is_busy);
    Err(cause)
}

// One slot more of blower k; where its stretch ends, the entry is written.
fn advance(
    words: &mut Words,
    out: &mut [u8],
    slots: usize,
    t: usize,
    k: u8,
    progress: Progress,
) -> Progress
    requires { CanAdvance slots t k progress words.old out.old }
    ensures { Advanced result slots t k progress words.old out.old words.new out.new }
{
    let is_busy = progress.busy;
    let Err(cause) = step(words, t, k, is_busy) else {
        return progress;
    };
    let s = CausedStretch {
        blower: k,
        first: progress.first,
        last: t,
        cause,
    };
    let extent = cause_lines::append(out, slots, progress.extent, s);
    Progress {
        busy: !is_busy,
        first: t + 1,
        extent,
    }
}

// Settles blower k in every slot of the day, and lists its stretches that end before the last.
fn list_blower(words: &mut Words, out: &mut [u8], slots: usize, k: u8, so_far: Extent) -> Extent
    requires { CanList slots so_far words.old out.old × (1 ≤ k) }
    ensures { BlowerListed result slots k so_far words.old out.old words.new out.new }
{
    let mut progress = Progress {
        busy: false,
        first: 1,
        extent: so_far,
    };
    for t in 0..slots {
        progress = advance(words, out, slots, t, k, progress);
    }
    progress.extent
}

// Settles the blowers, from the last down to the first, and lists their stretches with their causes from the front of
// out on. Once the listing is cut, those left would add nothing to it.
pub fn list_stretches(words: &mut Words, out: &mut [u8], slots: usize, blowers: u8) -> Extent
    requires { CanList slots (record { length = 0; cut = false }) words.old out.old }
    ensures { AllListed result slots blowers words.old out.old out.new }
{
    let mut so_far = Extent {
        length: 0,
        cut: false,
    };
    for k in (1..=blowers).rev() {
        if so_far.cut {
            return so_far;
        }
        so_far = list_blower(words, out, slots, k, so_far);
    }
    so_far
}
