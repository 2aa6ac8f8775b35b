// The search for a chain of moves. It spreads over the slots in sweeps, with one word of all rations fed in the slots
// marked so far, and numbers the slots as it marks them. A slot with room ends it: the chain goes back from there, each
// slot to one with a smaller number. A sweep marks a slot or is the last, so a search takes at most a pass over pairs
// of slots, in word operations. The grid is changed only along the chain.
//
// The words stay parameters side by side and make no struct: the same search runs on the exchanged words, `rest` for
// `fed`, for which a struct would be taken apart and put together in the other order at each question. A mark stays a
// byte, 0 for none, and so does a slot's number in `order`: `Seen` and `Numbered`, and the theorems over them up to the
// causes of a held day, read both as lists of numbers.
ghost use Rattle.std.specs.Prelude.{◌≡◌, ◌<◌, ltb, IfSome, MatchOption};
ghost use Rattle.std.specs.ControlFlow.{MatchControlFlow};
ghost use Rattle.std.specs.Int.Count.{ones};
ghost use Rattle.grid.specs.Grid.{slots, Move};
ghost use Rattle.grid.specs.Search.{CanShift, Open, Straight, CanLook, Looked, LookedTo, CanSweep, Swept, SweptTo, CanSpread, Sought, IsParent, CanParent, Parent, CanCarry, Carried, CanPush, Pushed};

use crate::SLOTS;
use std::ops::ControlFlow;

// Moves a ration from slot x to slot y.
pub fn shift(fed: &mut [u64; SLOTS], rest: &mut [u64; SLOTS], x: usize, y: usize)
    requires { CanShift fed.old rest.old x y }
    ensures { Move fed.old rest.old fed.new rest.new x y }
{
    let j = bits::lowest(fed[x] & rest[y]);
    bits::move_bit(&mut fed[x], &mut rest[x], j);
    bits::move_bit(&mut rest[y], &mut fed[y], j);
}

// Whether a slot that feeds the rations of `word` can take one more.
pub fn has_room(word: u64, high: u8) -> bool
    ensures { result ≡ ltb (ones word) high }
{
    word.count_ones() < high as u32
}

// Whether a slot with these words, this high and this mark can take a ration straight from one that feeds the rations
// of `from`.
fn is_open(from: u64, fed: u64, rest: u64, high: u8, mark: u8) -> bool
    ensures { Open result from fed rest high mark }
{
    from & rest != 0 && mark == 0 && has_room(fed, high)
}

// The first slot after x that can take a ration straight from x.
fn straight(
    fed: &[u64; SLOTS],
    rest: &[u64; SLOTS],
    high: &[u8; SLOTS],
    seen: &[u8; SLOTS],
    x: usize,
) -> Option<usize>
    requires { CanPush fed.now rest.now high.now seen.now x }
    ensures { IfSome result (λ y. (y < slots) × Straight fed.now rest.now high.now seen.now x y) }
{
    let from = fed[x];
    for y in x + 1..SLOTS {
        if is_open(from, fed[y], rest[y], high[y], seen[y]) {
            return Some(y);
        }
    }
    None
}

// How far a search has come: the rations fed in the slots that it marked, and the last number that it gave.
#[derive(Clone, Copy)]
struct Front {
    reached: u64,
    last: u8,
}

// Looks at slot y: marks it where a ration that was reached rests in it. The search goes on, or breaks off with y,
// which has room.
fn look(
    fed: &[u64; SLOTS],
    rest: &[u64; SLOTS],
    high: &[u8; SLOTS],
    seen: &mut [u8; SLOTS],
    order: &mut [u8; SLOTS],
    front: Front,
    y: usize,
) -> ControlFlow<usize, Front>
    requires { CanLook fed.now rest.now high.now seen.old order.old front.last y }
    ensures { MatchControlFlow result
        (λ next. Looked fed.now rest.now high.now seen.old order.old front.reached front.last y
        seen.new order.new next.reached next.last slots)
        (λ found. LookedTo fed.now rest.now high.now seen.old order.old front.reached front.last y
        seen.new order.new found) }
{
    if seen[y] != 0 || front.reached & rest[y] == 0 {
        return ControlFlow::Continue(front);
    }
    let last = front.last + 1;
    seen[y] = 1;
    order[y] = last;
    if has_room(fed[y], high[y]) {
        return ControlFlow::Break(y);
    }
    ControlFlow::Continue(Front {
        reached: front.reached | fed[y],
        last,
    })
}

// Looks at every slot. The search goes on, or breaks off with a slot with room.
fn sweep(
    fed: &[u64; SLOTS],
    rest: &[u64; SLOTS],
    high: &[u8; SLOTS],
    seen: &mut [u8; SLOTS],
    order: &mut [u8; SLOTS],
    front: Front,
) -> ControlFlow<usize, Front>
    requires { CanSweep fed.now rest.now high.now seen.old order.old front.last }
    ensures { MatchControlFlow result
        (λ next. Swept fed.now rest.now high.now seen.old order.old front.reached front.last
        seen.new order.new next.reached next.last slots)
        (λ found. SweptTo fed.now rest.now high.now seen.old order.old front.reached front.last
        seen.new order.new found) }
{
    let mut next = front;
    for y in 0..SLOTS {
        next = look(fed, rest, high, seen, order, next, y)?;
    }
    ControlFlow::Continue(next)
}

// Spreads from slot x, in sweeps, until a slot with room is found, which it gives, or a sweep marks nothing.
fn spread(
    fed: &[u64; SLOTS],
    rest: &[u64; SLOTS],
    high: &[u8; SLOTS],
    seen: &mut [u8; SLOTS],
    order: &mut [u8; SLOTS],
    x: usize,
) -> Option<usize>
    requires { CanSpread fed.now rest.now high.now seen.old order.old x }
    ensures { MatchOption result
        (Sought fed.now rest.now high.now seen.old seen.new order.new x slots)
        (λ end. (end < slots) × Sought fed.now rest.now high.now seen.old seen.new order.new x end) }
{
    seen[x] = 1;
    order[x] = 1;
    let mut front = Front {
        reached: fed[x],
        last: 1,
    };
    loop {
        match sweep(fed, rest, high, seen, order, front) {
            ControlFlow::Break(end) => return Some(end),
            ControlFlow::Continue(next) => {
                if next.last == front.last {
                    return None;
                }
                front = next;
            }
        }
    }
}

// Whether a slot with this fed word and number has an edge to one with this rest word and a greater number.
fn is_parent(fed: u64, number: u8, rest: u64, greater: u8) -> bool
    ensures { IsParent result fed number rest greater }
{
    0 < number && number < greater && fed & rest != 0
}

// A slot numbered before e that has an edge to it.
fn parent(fed: &[u64; SLOTS], rest: &[u64; SLOTS], order: &[u8; SLOTS], e: usize) -> usize
    requires { CanParent fed.now rest.now order.now e }
    ensures { Parent fed.now rest.now order.now e result }
{
    let r = rest[e];
    let n = order[e];
    for p in 0..SLOTS {
        if is_parent(fed[p], order[p], r, n) {
            return p;
        }
    }
    unreachable!()
}

// Moves a ration along a chain from x to e, the last move first.
fn carry(fed: &mut [u64; SLOTS], rest: &mut [u64; SLOTS], order: &[u8; SLOTS], x: usize, e: usize)
    requires { CanCarry fed.old rest.old order.now x e }
    ensures { Carried fed.old rest.old order.now fed.new rest.new x e }
{
    let mut y = e;
    while y != x {
        let p = parent(fed, rest, order, y);
        shift(fed, rest, p, y);
        y = p;
    }
}

// Frees a place in slot x by a chain of any length: what `push` does, for a caller that knows that no one move to a
// later slot does it.
pub fn push_along(
    fed: &mut [u64; SLOTS],
    rest: &mut [u64; SLOTS],
    high: &[u8; SLOTS],
    seen: &mut [u8; SLOTS],
    x: usize,
) -> bool
    requires { CanPush fed.old rest.old high.now seen.old x }
    ensures { Pushed result fed.old rest.old high.now seen.old
        fed.new rest.new seen.new x }
{
    let mut order = [0; SLOTS];
    let Some(end) = spread(fed, rest, high, seen, &mut order, x) else {
        return false;
    };
    carry(fed, rest, &order, x, end);
    true
}

// Frees a place in slot x: a chain of moves from x to a slot that has room. Where there is none, nothing moves, and the
// slots reached from x are marked. Most often one move does, so that is tried first.
pub fn push(
    fed: &mut [u64; SLOTS],
    rest: &mut [u64; SLOTS],
    high: &[u8; SLOTS],
    seen: &mut [u8; SLOTS],
    x: usize,
) -> bool
    requires { CanPush fed.old rest.old high.now seen.old x }
    ensures { Pushed result fed.old rest.old high.now seen.old
        fed.new rest.new seen.new x }
{
    if let Some(y) = straight(fed, rest, high, seen, x) {
        shift(fed, rest, x, y);
        return true;
    }
    push_along(fed, rest, high, seen, x)
}
