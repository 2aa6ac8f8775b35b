// The checks of a sheet's numbers: 3 to 9 of document 01 and 13, in their order, and what a sheet is.
//
// specs/Sheet.antt says what the numbers of a sheet's bytes are, specs/Checks.antt has all checks of a sheet, those
// of its length and its form too, and specs/CallChecks.antt the checks of each call. The names of the limits and the
// refusals are here for every crate above.
#![tactic(auto)]

mod faults;
pub mod limits;
mod values;

pub use faults::Fault;
pub use values::{head_refusal, rations_refusal, value_refusal};

// A refusal's number and the line that it names; 0 and 0 where nothing is refused. The number is no `Fault` here: it
// goes into the answers that C reads, and the definitions (`first_refusal`) and their theorems speak of it.
#[derive(Clone, Copy, PartialEq, Eq)]
pub struct Refusal {
    pub number: u32,
    pub line: u32,
}
