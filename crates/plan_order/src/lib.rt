// The order of plans: which of two comes first, by D and by the tanks fed in each slot (specs/Order.antt).
//
// Nothing is known here of how a plan was made: a day is its slots, its rations' numbers and the words of its
// feedings.
#![tactic(auto)]

ghost use Rattle.std.specs.Prelude.{◌≡◌};
ghost use Rattle.plan_order.specs.Order.{order_number};
ghost use Rattle.plan_order.specs.Clauses.{as_order};

mod days;
mod slots;

pub use days::order_of_days;
use std::cmp::Ordering;

// What a comparison answers, said of the first of two sheets. The calls give its number. It is not std's
// `Option<Ordering>`, since theorems name its cases and their numbers (`answer_numbers`, and `compare_order` of
// `demands`).
#[derive(Clone, Copy, PartialEq, Eq)]
pub enum Order {
    // a sheet is refused
    No = 0,
    // the same day
    Same = 1,
    Before = 2,
    After = 3,
}

impl From<Ordering> for Order {
    ghost from_gives = { λ ordering order. order ≡ as_order ordering };

    fn from(ordering: Ordering) -> Order {
        match ordering {
            Ordering::Less => Order::Before,
            Ordering::Equal => Order::Same,
            Ordering::Greater => Order::After,
        }
    }
}

impl From<Order> for u32 {
    ghost from_gives = { λ order number. number ≡ order_number order };

    fn from(order: Order) -> u32 {
        order as u32
    }
}

// The feedings of a day: its slots, its rations' numbers, and a word for each slot. Bit j of word t says that ration
// j + 1 is fed in slot t + 1.
#[derive(Clone, Copy)]
pub struct DayFed<'a> {
    pub slots: u32,
    pub numbers: &'a [u32; 256],
    pub fed: &'a [u64; 96],
}
