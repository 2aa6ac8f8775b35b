// The feedings: slots in rising order, in each slot rations in sheet order; a ration is fed if some sound placing with
// these counts and all choices made before does so. The words hold a sound placing with the counts at the start, one of
// what is left after each choice, and nothing at the end.
ghost use Rattle.std.specs.Prelude.{◌≡◌};
ghost use Rattle.feedings.specs.FeedingCalls.{CanChooseSlot, ChoseSlot, CanChoose, Chose};

use crate::{candidates, feed};
use grid::SLOTS;
use placing::Words;

// The rations fed in slot t, bit j for ration j.
fn choose_slot(words: &mut Words, t: usize, rations: usize) -> u64
    requires { CanChooseSlot words.old.fed words.old.rest words.old.high t rations }
    ensures chose { ChoseSlot result words.old.fed words.old.rest words.old.high
        words.new.fed words.new.rest words.new.high t rations }
    ensures spares { words.new.spare ≡ words.old.spare }
{
    let mut word = 0;
    let mut may = candidates::fed_somewhere(&words.fed);
    for j in 0..rations {
        word = feed::feed_bit(words, &mut may, t, j as u32, word);
    }
    word
}

// Writes to `chosen`, which is all 0, the rations fed in each slot, bit j for ration j. At the start the words hold a
// sound placing whose loads are the counts, and its highs are the counts. At most one search for each slot and ration.
pub fn choose(words: &mut Words, chosen: &mut [u64; SLOTS], slots: usize, rations: usize)
    requires { CanChoose words.old.fed words.old.rest words.old.high chosen.old slots rations }
    ensures chose { Chose words.old.fed words.old.rest words.old.high chosen.new slots rations }
    ensures spares { words.new.spare ≡ words.old.spare }
{
    for t in 0..slots {
        chosen[t] = choose_slot(words, t, rations);
    }
}
