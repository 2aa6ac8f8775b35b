// Which rations are fed in which slot: cell after cell, a ration is fed where some sound placing with the counts and
// all choices made before does so (specs/Feedings of `method`). `choose` is for the layer above.
#![tactic(auto)]

mod candidates;
mod choosing;
mod exchange;
mod feed;

pub use choosing::choose;
