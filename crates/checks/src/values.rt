// The checks 3 to 9 and 13, on numbers.
ghost use Rattle.std.specs.Prelude.{◌≡◌, ◌+◌, ◌*◌, ◌≤◌, ◌<◌, length, take};
ghost use Rattle.line.specs.Layout.{fields};
ghost use Rattle.checks.specs.Limits.{max_rations};
ghost use Rattle.checks.specs.Sheet.{jobs_of, sheet_from};
ghost use Rattle.checks.specs.Checks.{first_refusal, head_faults, tank_fault, window_fault, volume_fault, meal_fault, job_faults, jobs_faults, flat_faults};
ghost use Rattle.checks.specs.Parts.{head, job};
ghost use Rattle.checks.specs.Verdicts.{verdict};

use crate::limits::{MAX_BLOWERS, MAX_RATIONS, MAX_SLOTS, MAX_TANK, MAX_WAKE};
use crate::{Fault, Refusal};

// 3 to 6: the head line's numbers, each by itself, as `kiwimound_write` takes them.
pub fn head_refusal(
    slots: u32,
    blowers: u32,
    wake: u32,
    rations: u32,
    agrees: bool,
) -> Result<(), Refusal>
    ensures { result ≡ verdict (first_refusal (head_faults (head slots blowers wake) rations agrees)) }
{
    if !(1..=MAX_SLOTS).contains(&slots) {
        return Err(Fault::Slots.on(1));
    }
    if !(1..=MAX_BLOWERS).contains(&blowers) {
        return Err(Fault::Blowers.on(1));
    }
    if MAX_WAKE < wake {
        return Err(Fault::Wake.on(1));
    }
    if MAX_RATIONS < rations || !agrees {
        return Err(Fault::Rations.on(1));
    }
    Ok(())
}

// A ration's numbers, as four flat numbers give them.
#[derive(Clone, Copy, Default)]
struct Ration {
    tank: u32,
    release: u32,
    deadline: u32,
    volume: u32,
}

impl Ration {
    // 7: the tank, after the tank before it.
    fn tank_fault(self, before: Ration) -> bool
        ensures { result ≡ tank_fault before.tank self.tank }
    {
        !(1..=MAX_TANK).contains(&self.tank) || self.tank < before.tank
    }

    // 8: the window.
    fn window_fault(self, slots: u32) -> bool
        ensures { result ≡ window_fault slots self.release self.deadline }
    {
        self.release < 1 || self.deadline < self.release || slots < self.deadline
    }

    // 9: the volume, of a window that is in order.
    fn volume_fault(self) -> bool
        requires { (1 ≤ self.release) × (self.release ≤ self.deadline) }
        ensures { result ≡ volume_fault self.release self.deadline self.volume }
    {
        self.volume == 0 || self.deadline - self.release + 1 < self.volume
    }

    // 13: a meal of the tank before, against the last slot of the window before it.
    fn meal_fault(self, before: Ration) -> bool
        ensures { result ≡ meal_fault before.tank before.deadline self.tank self.release }
    {
        self.tank == before.tank && self.release <= before.deadline
    }

    // 7 to 9 and 13: the ration on its line, after the ration before it, which is all zeros where it is the first.
    fn refusal(self, slots: u32, line: u32, before: Ration) -> Result<(), Refusal>
        ensures { result ≡ verdict (first_refusal (job_faults slots line before.tank before.deadline (job self.tank self.release self.deadline self.volume))) }
    {
        if self.tank_fault(before) {
            return Err(Fault::Tank.on(line));
        }
        if self.window_fault(slots) {
            return Err(Fault::Window.on(line));
        }
        if self.volume_fault() {
            return Err(Fault::Volume.on(line));
        }
        if self.meal_fault(before) {
            return Err(Fault::Meal.on(line));
        }
        Ok(())
    }
}

// 7 to 9 and 13: n rations as flat numbers, four for each, line by line.
pub fn rations_refusal(slots: u32, n: usize, numbers: &[u32]) -> Result<(), Refusal>
    requires { (n ≤ max_rations) × (fields * n ≤ length numbers.now) }
    ensures { result ≡ verdict (first_refusal (jobs_faults slots 2 0 0 (jobs_of (take (fields * n) numbers.now)))) }
{
    let mut before = Ration::default();
    for i in 0..n {
        let at = 4 * i;
        let ration = Ration {
            tank: numbers[at],
            release: numbers[at + 1],
            deadline: numbers[at + 2],
            volume: numbers[at + 3],
        };
        ration.refusal(slots, i as u32 + 2, before)?;
        before = ration;
    }
    Ok(())
}

// 3 to 9 and 13: the head line's numbers, and the flat numbers of its rations, as many as it announces or not.
pub fn value_refusal(
    slots: u32,
    blowers: u32,
    wake: u32,
    rations: u32,
    numbers: &[u32],
) -> Result<(), Refusal>
    ensures { result ≡ verdict (first_refusal (flat_faults (sheet_from slots blowers wake numbers.now) rations numbers.now)) }
{
    let n = rations as usize;
    head_refusal(slots, blowers, wake, rations, 4 * n == numbers.len())?;
    rations_refusal(slots, n, numbers)
}
