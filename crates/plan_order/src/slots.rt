// The order of the tanks that are fed in one slot.
//
// A slot's word has bit j set where ration j + 1 is fed in it: from set bit to set bit the tanks are in sheet order.
// The same tank can stand at different places of two sheets, so that tanks are compared and never bits.
ghost use Rattle.std.specs.Prelude.{◌≡◌, ◌<◌};
ghost use Rattle.plan_lines.specs.Inputs.{tank_at};
ghost use Rattle.plan_order.specs.Order.{order_of_numbers, order_of_tanks};
ghost use Rattle.plan_order.specs.Clauses.{as_order, tanks_of_word};

use std::cmp::Ordering;

// Two tanks, each the first of its ration's four numbers.
fn order_of_rations(i: u32, numbers: &[u32; 256], j: u32, others: &[u32; 256]) -> Ordering
    requires { (i < 64) × (j < 64) }
    ensures { as_order result ≡ order_of_numbers (tank_at numbers.now i) (tank_at others.now j) }
{
    let x = numbers[4 * (i as usize)];
    let y = others[4 * (j as usize)];
    x.cmp(&y)
}

// The order of the tanks fed by one word and of those fed by another. No tank is looked at after the first that
// differs.
pub fn order_in_slot(word: u64, numbers: &[u32; 256], other: u64, others: &[u32; 256]) -> Ordering
    ensures { as_order result ≡ order_of_tanks (tanks_of_word numbers.now word) (tanks_of_word others.now other) }
{
    let mut other_bits = bits::set_bits(other);
    for i in bits::set_bits(word) {
        let Some(j) = other_bits.next() else {
            return Ordering::Greater;
        };
        let order = order_of_rations(i, numbers, j, others);
        if order.is_ne() {
            return order;
        }
    }
    match other_bits.next() {
        Some(_) => Ordering::Less,
        None => Ordering::Equal,
    }
}
