// Halls behind one mains fuse: up to four sheets planned in list order under a limit on the busy blowers of all halls
// in a slot.
//
// A hall is planned as a sheet is, under the highs that the earlier halls leave it: in each slot the smaller of its own
// blowers and the limit less what they use. What the call answers, and what it leaves in each buffer, is stated in
// specs/Halls.antt; what holds of the halls together is in specs/Theorems.antt.
#![tactic(auto)]

mod calls;

pub use calls::plan_halls;
use planning::Planned;

// What planning halls answers: number and line of the call, 0 or 14 and 0, and for each of four halls its own answer,
// zeros where it is not there. C reads it (`kiwimound_plan_halls`).
#[repr(C)]
#[derive(Clone, Copy)]
pub struct HallsPlanned {
    pub number: u32,
    pub line: u32,
    pub first: Planned,
    pub second: Planned,
    pub third: Planned,
    pub fourth: Planned,
}

// What planning one hall gives: its answer, and the blowers that it and the earlier halls use in each slot.
#[derive(Drop)]
pub struct HallPlanned {
    pub planned: Planned,
    pub used: [u8; 96],
}
