// The blowers that halls use in each slot, and what the limit leaves to the next hall. What is asked for here are
// numbers, not sheets, so that a wrong sum or a wrong high is found without a proof of the call in `halls` above.
#![tactic(auto)]

ghost use Rattle.std.specs.Prelude.{◌≡◌, ◌+◌, ◌-◌, ◌≤◌, min, length};
ghost use Rattle.common.specs.Buffers.{padded};
ghost use Rattle.common.specs.Lists.{zip_with};
ghost use Rattle.checks.specs.Limits.{max_slots};
ghost use Rattle.hall_uses.specs.Uses.{hall_high, CanAdd};

// A hall's high in a slot: the smaller of its own blowers and the limit less what earlier halls use. Nothing is left
// where they use as many as the limit, or more.
fn hall_high(limit: u8, used: u8, blowers: u8) -> u8
    ensures { result ≡ min blowers (limit - used) }
{
    blowers.min(limit.saturating_sub(used))
}

// The highs of a hall in its slots, 0 past its last one.
pub fn hall_highs(limit: u8, used: &[u8; 96], slots: usize, blowers: u8) -> [u8; 96]
    requires { (slots ≤ max_slots) × (length used.now ≡ max_slots) }
    ensures { result ≡ padded max_slots (hall_high limit used.now slots blowers) }
{
    let mut highs = [0u8; 96];
    for t in 0..slots {
        highs[t] = hall_high(limit, used[t], blowers);
    }
    highs
}

// What earlier halls use and what this one uses, slot by slot.
pub fn add_used(used: &[u8; 96], counts: &[u8; 96]) -> [u8; 96]
    requires { CanAdd used.now counts.now }
    ensures { result ≡ zip_with ◌+◌ used.now counts.now }
{
    let mut sums = [0u8; 96];
    for t in 0..96 {
        sums[t] = used[t] + counts[t];
    }
    sums
}
