// The rates, and the cents of a charge.
ghost use Rattle.std.specs.Prelude.{◌≡◌, ◌≤◌};
ghost use Rattle.bill.specs.Bill.{rate_of, amount_of};

use crate::Amount;

// Tenths of a cent per energy unit, for each hour of the day.
const RATES: [u32; 24] = [
    // hours 0 to 5
    18, 18, 18, 18, 18, 18,
    // hours 6 to 8
    31, 31, 31,
    // hours 9 to 16
    24, 24, 24, 24, 24, 24, 24, 24,
    // hours 17 to 20
    36, 36, 36, 36,
    // hours 21 to 23
    22, 22, 22,
];

// The rate of a slot's hour.
pub fn rate_of(slot: usize) -> u32
    requires { (1 ≤ slot) × (slot ≤ 96) }
    ensures { result ≡ rate_of slot }
{
    RATES[(slot - 1) / 4]
}

// A charge, given in tenths of a cent, in whole cents, halves upward.
pub fn amount_of(tenths: u32) -> Amount
    ensures { result ≡ amount_of tenths }
{
    let cents = tenths / 10 + (tenths % 10 + 5) / 10;
    Amount {
        hundreds: cents / 100,
        remaining: cents % 100,
    }
}
