// An exchange: a ration that rests in slot t and is fed in a later slot, for a ration of slot t that rests there.
ghost use Rattle.std.specs.Prelude.{◌≡◌, ◌<◌, IfSome};
ghost use Rattle.grid.specs.Grid.{slots, Edge};
ghost use Rattle.feedings.specs.CellChoice.{IsPartner, CanAsk, Partner, CanReplace, Swapped};

use grid::{SLOTS, search};
use placing::Words;

// Whether a slot with these words feeds ration j, and one of the rations of `from` rests in it.
fn is_partner(from: u64, fed: u64, rest: u64, j: u32) -> bool
    requires { j < 64 }
    ensures { IsPartner result from fed rest j }
{
    bits::has_bit(fed, j) && from & rest != 0
}

// The first slot after t that feeds ration j and in which a ration of slot t rests.
pub fn partner(words: &Words, t: usize, j: u32) -> Option<usize>
    requires { CanAsk words.now.fed words.now.rest words.now.high t j }
    ensures { IfSome result (λ z. (z < slots) × Partner z words.now.fed words.now.rest t j) }
{
    let from = words.fed[t];
    for z in t + 1..SLOTS {
        if is_partner(from, words.fed[z], words.rest[z], j) {
            return Some(z);
        }
    }
    None
}

// Exchanges ration j, fed in slot z, for a ration of slot t that rests in z.
pub fn swap(words: &mut Words, t: usize, j: u32, z: usize)
    requires { CanReplace words.old.fed words.old.rest words.old.high t j z × Edge words.old.fed words.old.rest t z }
    ensures swapped { Swapped words.old.fed words.old.rest words.old.high
        words.new.fed words.new.rest words.new.high t j }
    ensures spares { words.new.spare ≡ words.old.spare }
    ensures marks { words.new.seen ≡ words.old.seen }
{
    bits::move_bit(&mut words.fed[z], &mut words.rest[z], j);
    search::shift(&mut words.fed, &mut words.rest, t, z);
    words.high[t] -= 1;
}
