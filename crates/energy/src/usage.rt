// On slots and starts, from the counts of the slots.
ghost use Rattle.std.specs.Prelude.{◌≡◌, length};
ghost use Rattle.method.specs.Intervals.{intervals};
ghost use Rattle.energy.specs.Energy.{on_in, start_at, starts, on};
ghost use Rattle.energy.specs.Listed.{number_of};
ghost use Rattle.energy.specs.Usage.{blower_use, day_use, CanCharge};

use crate::{BlowerUse, CountedDay, DayUse, State};

// Of so many slots in one state, those in which the blower is on.
#[tactic(auto, unfolding(crate::specs::Energy::on_in))]
fn on_in(state: State, slots: usize) -> usize
    ensures { result ≡ on_in (number_of state) slots }
{
    match state {
        State::Off => 0,
        State::Idle | State::Busy => slots,
    }
}

// 1 for a step from off to on, 0 for any other.
#[tactic(auto, unfolding(crate::specs::Energy::start_at))]
fn start_at(before: State, after: State) -> usize
    ensures { result ≡ start_at (number_of before) (number_of after) }
{
    match (before, after) {
        (State::Off, State::Idle | State::Busy) => 1,
        (State::Off, State::Off) | (State::Idle | State::Busy, _) => 0,
    }
}

// One blower's on slots and starts: one pass over its stretches. Blowers are off before slot 1.
fn blower_use(day: &CountedDay<'_>, blower: u32) -> BlowerUse
    ensures { result ≡ blower_use (length day.now.counts.now) day.now.wake (intervals day.now.counts.now blower) }
{
    let mut on = 0;
    let mut starts = 0;
    let mut before = State::Off;
    for stretch in day.stretches(blower) {
        on += on_in(stretch.state, stretch.slots());
        starts += start_at(before, stretch.state);
        before = stretch.state;
    }
    BlowerUse { on, starts }
}

// All blowers' on slots and starts, from blower 1 on. It costs one pass over the slots for each blower.
fn blowers_use(day: &CountedDay<'_>, blowers: u32) -> BlowerUse
    requires { CanCharge blowers day.now.wake }
    ensures on { result.on ≡ on blowers day.now.wake day.now.counts.now }
    ensures starts { result.starts ≡ starts blowers day.now.wake day.now.counts.now }
{
    let mut on = 0;
    let mut starts = 0;
    for blower in 1..=blowers {
        let used = blower_use(day, blower);
        on += used.on;
        starts += used.starts;
    }
    BlowerUse { on, starts }
}

// The energy and the starts of all blowers.
pub fn day_use(day: &CountedDay<'_>, blowers: u32) -> DayUse
    requires { CanCharge blowers day.now.wake }
    ensures { result ≡ day_use blowers day.now.wake day.now.counts.now }
{
    let used = blowers_use(day, blowers);
    DayUse {
        energy: (used.on + day.wake as usize * used.starts) as u32,
        starts: used.starts as u32,
    }
}
