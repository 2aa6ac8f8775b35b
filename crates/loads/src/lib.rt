// Placings in words, with the load of each slot from its low to its high.
//
// `first::place_first` feeds every ration in slots of its window, `first::place_again` goes from one volume of each to
// another. `relief::relieve` brings all loads down to the highs, or shows the slots into which too much is forced.
// `relief::lower` and `relief::raise` then set one slot's high lower or its low higher, or show that no placing has
// that. One search does all of it: on the grid for highs, on the exchanged words for lows.
#![tactic(auto)]

pub mod first;
pub mod relief;

// The rations of a grid, a bit of a word for each. A smaller sheet leaves the last bits 0.
pub const RATIONS: usize = 64;
