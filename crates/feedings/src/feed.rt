// The choice of feedings, one cell at a time: whether ration j is fed in slot t, all choices made before kept. The
// words hold one placing of what is left; a cell that is decided is in neither word any more. `high` has the load of
// each slot. `may` has the rations that can still be fed in slot t, and perhaps others: most answers need no search.
//
// `may`, the slot and the ration stay parameters beside the words: a struct of them would hold the borrowed words, and
// what is said of `may` fails between the writes of an exchange, so that no ghost field could say it.
ghost use Rattle.std.specs.Prelude.{◌≡◌, ◌<◌, eqb, position};
ghost use Rattle.common.specs.Bits.{bit};
ghost use Rattle.grid.specs.Grid.{at};
ghost use Rattle.feedings.specs.CellChoice.{CanFeed, Decided, MayFeed, CanFind, CanAsk, CanReplace, Answered, Replaced, CanFeedBit, FedBit};

use crate::{candidates, exchange};
use grid::{SLOTS, search};
use placing::Words;

// The first slot in which ration j is fed.
fn first_fed(fed: &[u64; SLOTS], j: u32) -> Option<usize>
    requires { CanFind fed.now j }
    ensures { result ≡ position (λ word. eqb (bit word j) 1) fed.now }
{
    fed.iter().position(|word| bits::has_bit(*word, j))
}

// Takes the feeding of ration j out of slot z and looks for a chain of moves from slot t, one of whose feedings is then
// ration j's, to slot z. Where there is none, the feeding stays. The marks are left on a set of slots around t that no
// ration fed in it can leave.
fn feed_instead(words: &mut Words, t: usize, j: u32, z: usize) -> bool
    requires { CanReplace words.old.fed words.old.rest words.old.high t j z }
    ensures replaced { Replaced result words.old.fed words.old.rest words.old.high
        words.new.fed words.new.rest words.new.high words.new.seen t j }
    ensures spares { words.new.spare ≡ words.old.spare }
{
    let fed = words.fed[z];
    let rest = words.rest[z];
    bits::move_bit(&mut words.fed[z], &mut words.rest[z], j);
    words.seen = [0; SLOTS];
    if search::push_along(
        &mut words.fed,
        &mut words.rest,
        &words.high,
        &mut words.seen,
        t,
    ) {
        words.high[t] -= 1;
        words.seen = [1; SLOTS];
        return true;
    }
    words.fed[z] = fed;
    words.rest[z] = rest;
    false
}

// Whether ration j, which rested in slot t, can be fed there, by a search.
fn feed_along(words: &mut Words, may: &mut u64, t: usize, j: u32) -> bool
    requires { CanAsk words.old.fed words.old.rest words.old.high t j × (0 < at words.old.high t)
        × MayFeed may.old t words.old.fed words.old.rest }
    ensures answered { Answered result words.old.fed words.old.rest words.old.high
        words.new.fed words.new.rest words.new.high t j
        × MayFeed may.new t words.new.fed words.new.rest }
    ensures spares { words.new.spare ≡ words.old.spare }
{
    let Some(z) = first_fed(&words.fed, j) else {
        return false;
    };
    let can = feed_instead(words, t, j, z);
    *may = candidates::fed_marked(&words.fed, &words.seen);
    can
}

// Whether ration j, which rested in slot t, can be fed there: without a search where the slot is full, where the ration
// is known not to, or where an exchange with one slot does it.
fn feed_resting(words: &mut Words, may: &mut u64, t: usize, j: u32) -> bool
    requires { CanAsk words.old.fed words.old.rest words.old.high t j
        × MayFeed may.old t words.old.fed words.old.rest }
    ensures answered { Answered result words.old.fed words.old.rest words.old.high
        words.new.fed words.new.rest words.new.high t j
        × MayFeed may.new t words.new.fed words.new.rest }
    ensures spares { words.new.spare ≡ words.old.spare }
{
    if words.high[t] == 0 || !bits::has_bit(*may, j) {
        return false;
    }
    if let Some(z) = exchange::partner(words, t, j) {
        exchange::swap(words, t, j, z);
        return true;
    }
    feed_along(words, may, t, j)
}

// Decides whether ration j is fed in slot t: some placing of what is left, with the same load in each slot, does so. At
// most one search.
pub fn feed(words: &mut Words, may: &mut u64, t: usize, j: u32) -> bool
    requires { CanFeed words.old.fed words.old.rest words.old.high t j
        × MayFeed may.old t words.old.fed words.old.rest }
    ensures decided { Decided result words.old.fed words.old.rest words.old.high
        words.new.fed words.new.rest words.new.high t j
        × MayFeed may.new t words.new.fed words.new.rest }
    ensures spares { words.new.spare ≡ words.old.spare }
{
    if bits::has_bit(words.fed[t], j) {
        words.fed[t] = bits::drop_bit(words.fed[t], j);
        words.high[t] -= 1;
        return true;
    }
    if !bits::has_bit(words.rest[t], j) {
        return false;
    }
    words.rest[t] = bits::drop_bit(words.rest[t], j);
    feed_resting(words, may, t, j)
}

// Decides the same, and gives the word of the slot's choices with this one as bit j.
pub fn feed_bit(words: &mut Words, may: &mut u64, t: usize, j: u32, word: u64) -> u64
    requires { CanFeedBit word may.old words.old.fed words.old.rest words.old.high t j }
    ensures fed_bit { FedBit word result may.new words.old.fed words.old.rest words.old.high
        words.new.fed words.new.rest words.new.high t j }
    ensures spares { words.new.spare ≡ words.old.spare }
{
    if feed(words, may, t, j) {
        bits::add_bit(word, j)
    } else {
        word
    }
}
