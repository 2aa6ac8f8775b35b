// Whether a sound placing exists under a low and a high for each slot: the highs first, then the lows, one slot after
// another.
ghost use Rattle.std.specs.Prelude.{◌≡◌, ◌≤◌, length};
ghost use Rattle.placing.specs.FeasibilityParts.{CanAsk, WordsAnswered};
ghost use Rattle.placing.specs.FeasibilitySteps.{LowDay, LowsRaised};

use crate::Words;

// Raises the low of every slot, from words whose lows are 0; false at the first one that can't be raised.
fn raise_lows(words: &mut Words, slots: usize, low: &[u8; 96]) -> bool
    requires { LowDay slots words.old × (slots ≤ length low.now) × (length low.now ≡ 96) }
    ensures { LowsRaised result slots low.now words.old }
{
    for t in 0..slots {
        if !words.busy(t, low[t]) {
            return false;
        }
    }
    true
}

// Whether a sound placing exists under the lows and highs. Bit j of `windows[t]` says that slot t is in the window of
// ration j, `volumes[j]` in how many slots it is to be fed.
pub fn is_feasible(
    slots: usize,
    windows: &[u64; 96],
    volumes: &[u8; 64],
    low: &[u8; 96],
    high: &[u8; 96],
) -> bool
    requires { CanAsk slots windows.now volumes.now low.now high.now }
    ensures { WordsAnswered result slots windows.now volumes.now
        low.now high.now }
{
    let mut words = Words::new();
    words.begin(windows, volumes, high) && raise_lows(&mut words, slots, low)
}
