// Bill: the charge of a day in tenths of a cent, and its cents.
//
// An on slot costs its hour's rate, and a start costs q times the rate of its first on slot. A blower's tally takes one
// slot after another, from stretch to stretch. The blowers' tallies add up to the day's charge as it is defined from
// the stretches of the listing (proofs/Theorems.antt), and only that sum is rounded.
#![tactic(auto)]

mod rates;
mod tallies;

pub use rates::amount_of;
pub use tallies::{Tally, day_charge};

// Whole hundreds of cents, and the remaining cents.
#[derive(Clone, Copy)]
pub struct Amount {
    pub hundreds: u32,
    pub remaining: u32,
}
