// The comparison of two sheets' plans.
ghost use Rattle.std.specs.Prelude.{◌≡◌};
ghost use Rattle.comparison.specs.Comparison.{compared_of, as_compared};

use crate::Compared;
use checks::{Fault, Refusal};
use plan_order::{DayFed, Order, order_of_days};
use planning::day_of;

// The order of two sheets' plans, or the first refusal: all checks of the first sheet come before those of the second.
fn order_of_sheets(a: &[u8], b: &[u8]) -> Result<Order, Refusal>
    ensures { as_compared result ≡ compared_of a.now b.now }
{
    let first = sheet::read_sheet(a)?;
    let Ok(one) = day_of(&first) else {
        return Err(Fault::Placing.on(0));
    };
    let second = sheet::read_sheet(b)?;
    let Ok(other) = day_of(&second) else {
        return Err(Fault::Placing.on(0));
    };
    Ok(order_of_days(
        &DayFed {
            slots: first.slots,
            numbers: &first.numbers,
            fed: &one.fed,
        },
        &DayFed {
            slots: second.slots,
            numbers: &second.numbers,
            fed: &other.fed,
        },
    ))
}

// A refusal's order is no.
impl From<Result<Order, Refusal>> for Compared {
    ghost from_gives = { λ order compared. compared ≡ as_compared order };

    fn from(order: Result<Order, Refusal>) -> Compared {
        match order {
            Ok(order) => Compared {
                number: 0,
                line: 0,
                order: u32::from(order),
            },
            Err(refusal) => Compared {
                number: refusal.number,
                line: refusal.line,
                order: u32::from(Order::No),
            },
        }
    }
}

// Compares the plans of two sheets: number 0 and which comes first, or that they are the same; or the number and the
// line of the first refusal, with all checks of the first sheet before those of the second.
pub fn compare(a: &[u8], b: &[u8]) -> Compared
    ensures { result ≡ compared_of a.now b.now }
{
    Compared::from(order_of_sheets(a, b))
}
