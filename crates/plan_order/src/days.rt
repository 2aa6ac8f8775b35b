// The order of two days: the shorter one first, then by the first slot that differs.
ghost use Rattle.std.specs.Prelude.{◌≡◌, ◌≤◌};
ghost use Rattle.checks.specs.Limits.{max_slots};
ghost use Rattle.plan_order.specs.Order.{then_by, order_of_numbers, order_of_slots};
ghost use Rattle.plan_order.specs.Clauses.{tanks_of_words};

use crate::slots::order_in_slot;
use crate::{DayFed, Order};

// The days of two plans. No slot is looked at after the first that differs.
pub fn order_of_days(one: &DayFed, other: &DayFed) -> Order
    requires { one.now.slots ≤ max_slots }
    ensures { result ≡ then_by (order_of_numbers one.now.slots other.now.slots)
        (order_of_slots (tanks_of_words one.now.slots one.now.numbers.now one.now.fed.now)
        (tanks_of_words other.now.slots other.now.numbers.now other.now.fed.now)) }
{
    let by_slots = one.slots.cmp(&other.slots);
    if by_slots.is_ne() {
        return Order::from(by_slots);
    }
    for t in 0..one.slots as usize {
        let by_tanks = order_in_slot(one.fed[t], one.numbers, other.fed[t], other.numbers);
        if by_tanks.is_ne() {
            return Order::from(by_tanks);
        }
    }
    Order::Same
}
