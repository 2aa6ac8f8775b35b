// Questions about one slot: may a blower stay idle in it, may it be busy in it. Each starts from words that hold a
// sound placing under the bounds kept so far, and leaves such words.
ghost use Rattle.std.specs.Prelude.{◌≡◌, ◌≤◌, ◌+◌, ◌<◌, leb};
ghost use Rattle.std.specs.Int.Count.{ones};
ghost use Rattle.grid.specs.Grid.{at};
ghost use Rattle.loads.specs.Relief.{width};
ghost use Rattle.placing.specs.WordCalls.{ReadyIn, IdledIn, BusiedIn};

use crate::Words;
use loads::relief;

// Whether the low of a slot with these words is k or more: its rations less the spare.
pub fn has_low(fed: u64, rest: u64, spare: u8, k: u8) -> bool
    ensures { result ≡ leb (spare + k) (ones fed + ones rest) }
{
    spare as u32 + k as u32 <= relief::width(fed, rest)
}

impl Words {
    // The same of slot t.
    pub(crate) fn has_low(&self, t: usize, k: u8) -> bool
        requires { t < 96 }
        ensures { result ≡ leb (at self.now.spare t + k) (width self.now.fed self.now.rest t) }
    {
        has_low(self.fed[t], self.rest[t], self.spare[t], k)
    }

    // Whether a sound placing exists with at most k − 1 feedings in slot t; if so, that is the slot's high from now on.
    // At most one search.
    pub fn idle(&mut self, t: usize, k: u8) -> bool
        requires { ReadyIn self.old t × (1 ≤ k) }
        ensures { IdledIn result self.old self.new t k }
    {
        if self.has_low(t, k) {
            return false;
        }
        if self.high[t] < k {
            return true;
        }
        relief::lower(
            &mut self.fed,
            &mut self.rest,
            &mut self.high,
            &mut self.seen,
            t,
            k - 1,
        )
    }

    // Whether a sound placing exists with at least k feedings in slot t; if so, that is the slot's low from now on. At
    // most k searches.
    pub fn busy(&mut self, t: usize, k: u8) -> bool
        requires { ReadyIn self.old t }
        ensures { BusiedIn result self.old self.new t k }
    {
        if self.high[t] < k {
            return false;
        }
        if self.has_low(t, k) {
            return true;
        }
        relief::raise(
            &mut self.fed,
            &mut self.rest,
            &mut self.spare,
            &mut self.seen,
            t,
            k,
        )
    }
}
