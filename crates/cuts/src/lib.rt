// Rations cut to an equal share: the sheet of a share, and the greatest share for which a sound placing exists.
//
// A share is a number of hundredths from 0 to 100. Of each ration volume × share / 100 is left, rounded down, and one
// of which nothing is left stays on the sheet. Where a share has a sound placing every smaller one has, so that the
// greatest lies between two ends that are moved towards each other (specs/Cuts.antt, specs/Theorems.antt). For the
// layers above: both functions ask for a sheet that no check refused.
#![tactic(auto)]

mod cutting;
mod search;

pub use cutting::cut_sheet;
pub use search::greatest_share;
