// The first placing: each ration is fed in slots of its window that have room below their highs, and where too few
// have, in any others of its window. So only a feeding that does not fit straight away asks for a search later. Another
// placing of the same windows with other volumes is made from one that is there.
ghost use Rattle.loads.specs.First.{CanFeed, FedSlot, CanPass, FedPass, CanPlace, Fed, CanSet, FedIn, CanPlaceAgain, PlacedAgain, CanStart, Started};

use crate::RATIONS;
use grid::{SLOTS, search};

// More than any slot can hold: all have room below it.
const BEYOND: u8 = RATIONS as u8 + 1;

// Feeds ration j in slot t if it may, if the slot has room below `high`, and if some of its feedings are left to make;
// gives how many then are.
fn feed_slot(
    fed: &mut [u64; SLOTS],
    rest: &mut [u64; SLOTS],
    high: u8,
    j: u32,
    t: usize,
    left: u8,
) -> u8
    requires { CanFeed fed.old rest.old j t }
    ensures { FedSlot j high left result fed.old rest.old fed.new rest.new t }
{
    if left == 0 || !bits::has_bit(rest[t], j) || !search::has_room(fed[t], high) {
        return left;
    }
    bits::move_bit(&mut rest[t], &mut fed[t], j);
    left - 1
}

// Feeds ration j, at most `left` times, in slots with room below their highs; gives how many feedings are left to make.
fn feed_pass(
    fed: &mut [u64; SLOTS],
    rest: &mut [u64; SLOTS],
    high: &[u8; SLOTS],
    j: u32,
    left: u8,
) -> u8
    requires { CanPass fed.old rest.old high.now j }
    ensures { FedPass j left result fed.old rest.old high.now fed.new rest.new }
{
    let mut n = left;
    for t in 0..SLOTS {
        if n == 0 {
            return 0;
        }
        n = feed_slot(fed, rest, high[t], j, t, n);
    }
    n
}

// Feeds ration j in so many slots more of its window, first where there is room.
fn feed_ration(
    fed: &mut [u64; SLOTS],
    rest: &mut [u64; SLOTS],
    high: &[u8; SLOTS],
    j: u32,
    more: u8,
)
    requires { CanPlace fed.old rest.old high.now j more }
    ensures { Fed j more fed.old rest.old fed.new rest.new }
{
    let left = feed_pass(fed, rest, high, j, more);
    feed_pass(fed, rest, &[BEYOND; SLOTS], j, left);
}

// Brings ration j from its old volume to a new one. Where that is smaller, it rests in so many slots more, which is to
// feed it in them on the exchanged words; which feedings are then taken out, the highs only happen to decide.
fn set_volume(
    fed: &mut [u64; SLOTS],
    rest: &mut [u64; SLOTS],
    high: &[u8; SLOTS],
    j: u32,
    old: u8,
    new: u8,
)
    requires { CanSet fed.old rest.old high.now j old new }
    ensures { FedIn j new fed.old rest.old fed.new rest.new }
{
    if old <= new {
        feed_ration(fed, rest, high, j, new - old);
    } else {
        feed_ration(rest, fed, high, j, old - new);
    }
}

// Brings every ration from its old volume to its new one. All other feedings stay where they are, which is for the cost
// and not promised.
pub fn place_again(
    fed: &mut [u64; SLOTS],
    rest: &mut [u64; SLOTS],
    high: &[u8; SLOTS],
    old: &[u8; RATIONS],
    new: &[u8; RATIONS],
)
    requires { CanPlaceAgain fed.old rest.old high.now old.now new.now }
    ensures { PlacedAgain new.now fed.old rest.old fed.new rest.new }
{
    for j in 0..RATIONS {
        set_volume(fed, rest, high, j as u32, old[j], new[j]);
    }
}

// Places every ration: bit j of `windows[t]` says that slot t is in the window of ration j, `volumes[j]` in how many
// slots it is fed.
pub fn place_first(
    windows: &[u64; SLOTS],
    volumes: &[u8; RATIONS],
    high: &[u8; SLOTS],
    fed: &mut [u64; SLOTS],
    rest: &mut [u64; SLOTS],
)
    requires { CanStart windows.now volumes.now high.now }
    ensures { Started windows.now volumes.now fed.new rest.new }
{
    // read before anything is written: a copy from one lent array to another may be made by memmove, which an archive
    // for C would then need from outside
    let all = *windows;
    *fed = [0; SLOTS];
    *rest = all;
    place_again(fed, rest, high, &[0; RATIONS], volumes);
}
