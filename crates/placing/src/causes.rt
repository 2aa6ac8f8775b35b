// Questions about one slot as in steps.rt, where a refusal says why: the cause of a stretch's end. The slots of a cause
// are those that the search which failed has marked. `idle` and `busy` stand beside these two and are not made of them:
// a plan asks two questions for each blower and slot, and would gather 96 marks at each refusal for no one.
ghost use Rattle.std.specs.Prelude.{◌≡◌, ◌+◌, ◌^◌, ◌≤◌, ◌<◌, ltb, length};
ghost use Rattle.theory.specs.SumsOver.{pick};
ghost use Rattle.grid.specs.Grid.{at};
ghost use Rattle.loads.specs.Relief.{width};
ghost use Rattle.placing.specs.CauseCalls.{MarkWord};
ghost use Rattle.placing.specs.WordCalls.{ReadyIn, RaisedOrMarked, IdleAnsweredIn, BusyAnsweredIn};

use crate::{Cause, Words};
use loads::relief;

// `word` with the bit j where the mark is not 0.
fn with_mark(word: u64, j: u32, mark: u8) -> u64
    requires { (j < 64) × (word < 2 ^ j) }
    ensures { result ≡ word + pick (ltb 0 mark) (2 ^ j) }
{
    if mark == 0 {
        return word;
    }
    bits::add_bit(word, j)
}

// Marks as a word: bit j where mark j is not 0.
fn word_of(marks: &[u8]) -> u64
    requires { length marks.now ≤ 64 }
    ensures { MarkWord result marks.now 0 (length marks.now) }
{
    let mut word = 0;
    for (j, mark) in marks.iter().enumerate() {
        word = with_mark(word, j as u32, *mark);
    }
    word
}

// The marked slots as the two words of a cause.
fn marked_words(seen: &[u8; 96]) -> (u64, u64)
    requires { length seen.now ≡ 96 }
    ensures { MarkWord result.0 seen.now 0 64 × MarkWord result.1 seen.now 64 32 }
{
    (word_of(&seen[..64]), word_of(&seen[64..]))
}

impl Words {
    // `idle`, and why no sound placing exists with at most k − 1 feedings in slot t + 1. At most one search.
    pub fn idle_or_cause(&mut self, t: usize, k: u8) -> Result<(), Cause>
        requires { ReadyIn self.old t × (1 ≤ k) }
        ensures { IdleAnsweredIn result self.old self.new t k }
    {
        if self.has_low(t, k) {
            return Err(Cause::LowAboveHigh(t as u32 + 1));
        }
        if self.high[t] < k {
            return Ok(());
        }
        if relief::lower(
            &mut self.fed,
            &mut self.rest,
            &mut self.high,
            &mut self.seen,
            t,
            k - 1,
        ) {
            return Ok(());
        }
        let (first, second) = marked_words(&self.seen);
        Err(Cause::Shortfall(first, second))
    }

    // Raises the low of slot t to k; where that can't be done, the marks are left on the set contained in every set of
    // greatest excess. Where fewer than k rations have the slot in their windows, `raise` would not search.
    fn raise_or_mark(&mut self, t: usize, k: u8) -> bool
        requires { ReadyIn self.old t × (k ≤ at self.old.high t)
            × (width self.old.fed self.old.rest t < at self.old.spare t + k) }
        ensures { RaisedOrMarked result self.old self.new t k }
    {
        if relief::width(self.fed[t], self.rest[t]) < k as u32 {
            relief::mark_excess(
                &mut self.fed,
                &mut self.rest,
                &mut self.spare,
                &mut self.seen,
                t,
                k,
            );
            return false;
        }
        relief::raise(
            &mut self.fed,
            &mut self.rest,
            &mut self.spare,
            &mut self.seen,
            t,
            k,
        )
    }

    // `busy`, and why no sound placing exists with at least k feedings in slot t + 1.
    pub fn busy_or_cause(&mut self, t: usize, k: u8) -> Result<(), Cause>
        requires { ReadyIn self.old t }
        ensures { BusyAnsweredIn result self.old self.new t k }
    {
        if self.high[t] < k {
            return Err(Cause::LowAboveHigh(t as u32 + 1));
        }
        if self.has_low(t, k) || self.raise_or_mark(t, k) {
            return Ok(());
        }
        let (first, second) = marked_words(&self.seen);
        Err(Cause::Excess(first, second))
    }
}
