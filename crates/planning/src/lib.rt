// The planning calls, for outsiders.
//
// What is planned is a problem (specs/Problem.antt); these calls plan a sheet alone, with every blower in every slot,
// and `plan_under` plans it under any highs, for the halls behind one limit.
// What each answers, and what it leaves in the buffers lent to it, is stated in specs/Planning.antt. What is demanded
// of these answers is in the crate `demands`.
#![tactic(auto)]

mod calls;

pub use calls::{plan, plan_both, plan_number, plan_placing};

// for the layers above: they take what was read, or an accepted sheet
pub use calls::{day_of, plan_both_of, plan_of, plan_under};

// What a planning call answers: the length is that of the listing written, 0 where none is. A number with the values
// beside it, since C reads it (`kiwimound_plan`).
#[repr(C)]
#[derive(Clone, Copy)]
pub struct Planned {
    pub number: u32,
    pub line: u32,
    pub length: usize,
}

// What planning a sheet under highs gives: the answer, and the busy blowers of each slot, 0 in slots past the day and
// in every slot where nothing is planned.
#[derive(Drop)]
pub struct PlannedDay {
    pub planned: Planned,
    pub counts: [u8; 96],
}
