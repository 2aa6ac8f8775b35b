// A blower's tally, slot after slot, and the charge of a day.
ghost use Rattle.std.specs.Prelude.{◌≡◌, ◌≤◌};
ghost use Rattle.checks.specs.Limits.{max_wake};
ghost use Rattle.energy.specs.Energy.{listed_for};
ghost use Rattle.energy.specs.Listed.{number_of, listing_of};
ghost use Rattle.energy.specs.Usage.{CanCharge};
ghost use Rattle.bill.specs.Bill.{blower_charge, charge};
ghost use Rattle.bill.specs.Tally.{slot_charge, with_slot, with_stretch, CanAddSlot, CanAddStretch};
ghost use Rattle.bill.specs.Numbers.{numbers_of};

use crate::rates;
use energy::{CountedDay, State, Stretch};

// A blower's charge, in tenths of a cent, and its state in the last slot taken; it is off before slot 1.
#[derive(Clone, Copy)]
pub struct Tally {
    pub charge: u32,
    pub state: State,
}

// What a slot costs in its state, after the state before it.
#[tactic(auto, unfolding(crate::specs::Tally::slot_charge, crate::specs::Bill::on_rate, energy::specs::Energy::start_at))]
fn slot_charge(wake: u32, slot: usize, before: State, state: State) -> u32
    requires { (1 ≤ slot) × (slot ≤ 96) × (wake ≤ max_wake) }
    ensures { result ≡ slot_charge wake slot (number_of before) (number_of state) }
{
    match state {
        State::Off => 0,
        State::Idle | State::Busy => {
            let rate = rates::rate_of(slot);
            match before {
                State::Off => rate + wake * rate,
                State::Idle | State::Busy => rate,
            }
        }
    }
}

impl Tally {
    // Takes one slot more.
    fn add_slot(&mut self, wake: u32, slot: usize, state: State)
        requires { CanAddSlot wake slot (number_of state) (numbers_of self.old) }
        ensures { numbers_of self.new ≡ with_slot wake slot (number_of state) (numbers_of self.old) }
    {
        self.charge += slot_charge(wake, slot, self.state, state);
        self.state = state;
    }

    // Takes a stretch more, slot after slot.
    fn add_stretch(&mut self, wake: u32, stretch: &Stretch)
        requires { CanAddStretch wake (listing_of stretch.now) (numbers_of self.old) }
        ensures { numbers_of self.new ≡ with_stretch wake (listing_of stretch.now) (numbers_of self.old) }
    {
        for slot in stretch.first..=stretch.last {
            self.add_slot(wake, slot, stretch.state);
        }
    }
}

// A blower's charge: one pass over its stretches, and in each over its slots.
fn blower_charge(day: &CountedDay<'_>, blower: u32) -> u32
    requires { day.now.wake ≤ max_wake }
    ensures { result ≡ blower_charge day.now.wake (listed_for day.now.wake day.now.counts.now blower) }
{
    let mut tally = Tally {
        charge: 0,
        state: State::Off,
    };
    for stretch in day.stretches(blower) {
        tally.add_stretch(day.wake, &stretch);
    }
    tally.charge
}

// The day's charge in tenths of a cent: the tallies of all blowers, from 1 on. It costs two passes over the slots for
// each blower.
pub fn day_charge(day: &CountedDay<'_>, blowers: u32) -> u32
    requires { CanCharge blowers day.now.wake }
    ensures { result ≡ charge blowers day.now.wake day.now.counts.now }
{
    let mut sum = 0;
    for blower in 1..=blowers {
        sum += blower_charge(day, blower);
    }
    sum
}
