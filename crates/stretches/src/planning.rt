// A whole day: from windows, volumes and highs to counts and feedings, or to the slots that show why it is held.
ghost use Rattle.placing.specs.Rations.{Rations, demands_from};
ghost use Rattle.stretches.specs.Days.{CanChooseDay, DayChosen, CanPlan, WordsPlanned, SomeHighs, DayUnder};

use crate::{DayPlan, HeldDay, settle};
use placing::{Words, windows};

// Settles the blowers and chooses the feedings, from words that hold a sound placing.
fn choose_day(words: &mut Words, slots: usize, blowers: u8, rations: usize) -> DayPlan
    requires { CanChooseDay slots rations words.old }
    ensures { DayChosen slots blowers rations words.old result }
{
    settle::settle(words, slots, blowers);
    let counts = words.high;
    let mut chosen = [0u64; 96];
    feedings::choose(words, &mut chosen, slots, rations);
    DayPlan {
        counts,
        fed: chosen,
    }
}

// Plans a day of so many slots and blowers. Bit j of `windows[t]` says that slot t is in the window of ration j,
// `volumes[j]` in how many slots it is to be fed, `highs[t]` how many feedings slot t can hold: at most the blowers.
pub fn plan_words(
    slots: usize,
    blowers: u8,
    rations: usize,
    windows: &[u64; 96],
    volumes: &[u8; 64],
    highs: &[u8; 96],
) -> Result<DayPlan, HeldDay>
    requires { CanPlan slots rations windows.now volumes.now highs.now }
    ensures { WordsPlanned result slots blowers rations windows.now volumes.now
        highs.now }
{
    let mut words = Words::new();
    if words.begin(windows, volumes, highs) {
        let plan = choose_day(&mut words, slots, blowers, rations);
        return Ok(plan);
    }
    let forced = words.marked_loads(slots);
    let capacity = words.marked_highs(slots);
    Err(HeldDay {
        marks: words.seen,
        forced,
        capacity,
    })
}

// Plans a day of rations in flat numbers, under a high for each slot: at most the blowers, and 0 past the day.
pub fn plan_day(
    slots: usize,
    blowers: u8,
    rations: usize,
    numbers: &[u32; 256],
    highs: &[u8; 96],
) -> Result<DayPlan, HeldDay>
    requires { Rations slots rations numbers.now × SomeHighs slots blowers highs.now }
    ensures { DayUnder result slots blowers (demands_from slots rations numbers.now) highs.now }
{
    let mut words = [0u64; 96];
    windows::mark_windows(&mut words, rations, numbers);
    let volumes = windows::volumes_of(rations, numbers);
    plan_words(slots, blowers, rations, &words, &volumes, highs)
}
