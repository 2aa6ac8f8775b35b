// The lines of a plan: its stretches and its feedings. What all lines and bytes of a listing are, a held sheet's and a
// placing's too, is stated in specs/Lines.antt and specs/Text.antt.
//
// A buffer and a place of it stay two parameters of each function that puts lines, since `put_line` of crate `line`,
// which they all end in, takes the two: a writer struct would be taken apart at each call.
//
// The public modules are for the layer above.
#![tactic(auto)]

pub mod feed_lines;
pub mod sizes;
pub mod stretch_lines;
