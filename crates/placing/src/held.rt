// The highs of a day without further word, and what is forced into the slots that a held day shows.
ghost use Rattle.std.specs.Prelude.{◌≡◌, ◌≤◌, ◌<◌, ℕ, ltb, replicate};
ghost use Rattle.checks.specs.Limits.{max_slots};
ghost use Rattle.common.specs.Buffers.{padded};
ghost use Rattle.theory.specs.SumsOver.{pick, sum_on};
ghost use Rattle.loads.specs.Meaning.{seen_at};
ghost use Rattle.placing.specs.Represents.{marked_loads, marked_highs};

use crate::Words;

// The blowers in every slot of the day, into bytes that are 0; those past its end stay 0. The bytes are lent, so that
// they are not copied on the way back.
pub fn set_highs(high: &mut [u8; 96], slots: usize, blowers: u8)
    requires { (slots ≤ max_slots) × (high.old ≡ replicate max_slots 0) }
    ensures { high.new ≡ padded max_slots (replicate slots blowers) }
{
    high[..slots].fill(blowers);
}

// The number of a slot, if it is marked.
fn if_marked(mark: u8, number: u32) -> u32
    ensures { (result ≡ pick (ltb 0 mark) number) × (result ≤ number) }
{
    if 0 < mark { number } else { 0 }
}

// The sum of a number of each slot, over the marked slots of the day.
fn sum_marked<F: Fn(usize) -> u32>(seen: &[u8; 96], slots: usize, number: F) -> u32
    requires day { slots ≤ max_slots }
    requires callable { (t : ℕ) → t < slots → F.pre number t }
    requires small { (t n : ℕ) → t < slots → F.post number t n → n ≤ 255 }
    ensures { (f : ℕ → ℕ) → ((t n : ℕ) → t < slots → F.post number t n → n ≡ f t)
        → result ≡ sum_on slots (seen_at seen.now) f }
{
    let mut sum = 0;
    for t in 0..slots {
        sum += if_marked(seen[t], number(t));
    }
    sum
}

impl Words {
    // The feedings in the marked slots of the day.
    pub fn marked_loads(&self, slots: usize) -> u32
        requires { slots ≤ max_slots }
        ensures { result ≡ marked_loads slots self.now.fed self.now.seen }
    {
        sum_marked(&self.seen, slots, |t| self.fed[t].count_ones())
    }

    // The sum of the highs over the marked slots of the day.
    pub fn marked_highs(&self, slots: usize) -> u32
        requires { slots ≤ max_slots }
        ensures { result ≡ marked_highs slots self.now.high self.now.seen }
    {
        sum_marked(&self.seen, slots, |t| self.high[t] as u32)
    }
}
