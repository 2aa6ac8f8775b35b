// What a day uses in each slot, planned or held: a held day uses no blower and feeds no ration.
ghost use Rattle.std.specs.Prelude.{◌≡◌};
ghost use Rattle.stretches.specs.Days.{busy_counts, fed_words};

use crate::{DayPlan, HeldDay};

// The busy blowers of each slot.
pub fn busy_counts(day: &Result<DayPlan, HeldDay>) -> [u8; 96]
    ensures { result ≡ busy_counts day.now }
{
    match day {
        Ok(plan) => plan.counts,
        Err(_) => [0u8; 96],
    }
}

// The feedings in each slot.
pub fn fed_words(day: &Result<DayPlan, HeldDay>) -> [u64; 96]
    ensures { result ≡ fed_words day.now }
{
    match day {
        Ok(plan) => plan.fed,
        Err(_) => [0u64; 96],
    }
}
