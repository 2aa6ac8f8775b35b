// Bringing loads down to the highs, by searches. A search that fails leaves the slots it reached marked: no later
// search looks at them again, and at the end they show why no placing of these rations keeps within the highs.
//
// The words stay parameters side by side and make no struct: a question on a low goes to the exchanged words, `rest`
// for `fed` and `spare` for `high`, for which a struct would be taken apart and put together in the other order.
ghost use Rattle.std.specs.Prelude.{◌≡◌, ◌+◌, ◌-◌, ◌≤◌, ◌<◌, ltb};
ghost use Rattle.std.specs.Int.Count.{ones};
ghost use Rattle.loads.specs.Relief.{CanUnload, Unloaded, CanRelieve, Relieved, CanLower, Lowered, Raised, OverMarked, ExcessMarked, Widths};

use grid::{SLOTS, search};

// Whether a slot that feeds the rations of `word` holds more than its high.
fn is_over(word: u64, high: u8) -> bool
    ensures { result ≡ ltb high (ones word) }
{
    (high as u32) < word.count_ones()
}

// Takes feedings out of slot t, one search for each, until it holds no more than its high or a search fails.
fn unload(
    fed: &mut [u64; SLOTS],
    rest: &mut [u64; SLOTS],
    high: &[u8; SLOTS],
    seen: &mut [u8; SLOTS],
    t: usize,
) -> bool
    requires { CanUnload fed.old rest.old high.now seen.old t }
    ensures { Unloaded result fed.old rest.old high.now seen.old
        fed.new rest.new seen.new t }
{
    let marks = *seen;
    while is_over(fed[t], high[t]) {
        if seen[t] != 0 {
            return false;
        }
        if !search::push(fed, rest, high, seen, t) {
            return false;
        }
        *seen = marks;
    }
    true
}

// Brings every load down to its high. Where that can't be done, the marks are left on the slots reached from those that
// hold too much: the set of slots contained in every set of greatest shortfall.
pub fn relieve(
    fed: &mut [u64; SLOTS],
    rest: &mut [u64; SLOTS],
    high: &[u8; SLOTS],
    seen: &mut [u8; SLOTS],
) -> bool
    requires { CanRelieve fed.old rest.old high.now }
    ensures { Relieved result fed.old rest.old high.now
        fed.new rest.new seen.new }
{
    *seen = [0; SLOTS];
    let mut within = true;
    for t in 0..SLOTS {
        within &= unload(fed, rest, high, seen, t);
    }
    within
}

// Lowers the high of slot t to h, where all loads are within the highs. Where that can't be done, the highs stay, and
// the marks are left on the slots reached from t.
pub fn lower(
    fed: &mut [u64; SLOTS],
    rest: &mut [u64; SLOTS],
    high: &mut [u8; SLOTS],
    seen: &mut [u8; SLOTS],
    t: usize,
    h: u8,
) -> bool
    requires { CanLower fed.old rest.old high.old t }
    ensures { Lowered result fed.old rest.old high.old
        fed.new rest.new high.new seen.new t h }
{
    let old = high[t];
    high[t] = h;
    *seen = [0; SLOTS];
    if unload(fed, rest, high, seen, t) {
        return true;
    }
    high[t] = old;
    false
}

// How many rations a slot has in its two words.
pub fn width(fed: u64, rest: u64) -> u32
    ensures { (result ≡ ones fed + ones rest) × (result ≤ 128) }
{
    fed.count_ones() + rest.count_ones()
}

// Raises the low of slot t to k, where `spare` has for each slot how many of the rations with the slot in their windows
// may rest in it: their number less the slot's low. It is `lower` on the exchanged words. Where it can't be done, the
// spares stay, and the marks are left on the slots reached from t there, unless fewer than k rations have t in their
// windows.
pub fn raise(
    fed: &mut [u64; SLOTS],
    rest: &mut [u64; SLOTS],
    spare: &mut [u8; SLOTS],
    seen: &mut [u8; SLOTS],
    t: usize,
    k: u8,
) -> bool
    requires { CanLower rest.old fed.old spare.old t }
    ensures { Raised result fed.old rest.old spare.old
        fed.new rest.new spare.new seen.new t k }
{
    let Some(h) = width(fed[t], rest[t]).checked_sub(k as u32) else {
        return false;
    };
    lower(rest, fed, spare, seen, t, h as u8)
}

// Marks the slots that show why slot t can't have the high h: those reached from it, as `lower` leaves them. Where it
// can, slot t alone is marked. The highs stay.
fn mark_over(
    fed: &mut [u64; SLOTS],
    rest: &mut [u64; SLOTS],
    high: &mut [u8; SLOTS],
    seen: &mut [u8; SLOTS],
    t: usize,
    h: u8,
)
    requires { CanLower fed.old rest.old high.old t }
    ensures { OverMarked fed.old rest.old high.old
        fed.new rest.new high.new seen.new t h }
{
    let old = high[t];
    if lower(fed, rest, high, seen, t, h) {
        high[t] = old;
        *seen = [0; SLOTS];
        seen[t] = 1;
    }
}

// What may rest in a slot of so many rations whose low is k; none where it has fewer than k.
fn spare_for(all: u32, k: u8) -> u8
    requires { all ≤ 128 }
    ensures { result ≡ all - k }
{
    all.saturating_sub(k as u32) as u8
}

// Marks the slots that show why slot t can't have the low k: `mark_over` on the exchanged words. Where fewer than k
// rations have t in their windows, the search is made with the low at their number: `raise` would make none. If that
// can't be done either, the slots reached show it for k as well; if it can, slot t alone does. The spares stay.
pub fn mark_excess(
    fed: &mut [u64; SLOTS],
    rest: &mut [u64; SLOTS],
    spare: &mut [u8; SLOTS],
    seen: &mut [u8; SLOTS],
    t: usize,
    k: u8,
)
    requires { CanLower rest.old fed.old spare.old t }
    ensures { ExcessMarked fed.old rest.old spare.old
        fed.new rest.new spare.new seen.new t k }
{
    let h = spare_for(width(fed[t], rest[t]), k);
    mark_over(rest, fed, spare, seen, t, h);
}

// Writes to `spare` how many rations each slot has: the spares where every low is 0.
pub fn widths(fed: &[u64; SLOTS], rest: &[u64; SLOTS], spare: &mut [u8; SLOTS])
    requires { CanRelieve fed.now rest.now spare.old }
    ensures { Widths fed.now rest.now spare.new }
{
    for t in 0..SLOTS {
        spare[t] = width(fed[t], rest[t]) as u8;
    }
}
