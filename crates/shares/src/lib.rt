// Short rations, equally cut: a sheet planned with the greatest share of its rations for which a sound placing exists.
//
// The call plans the cut sheet as a sheet is planned alone, with both buffers lent, and answers the share beside what
// planning answers. What it answers, and what it leaves in each buffer, is stated in specs/Shares.antt; what holds of
// the share is in specs/Theorems.antt and, of cut sheets, in crate `cuts`.
#![tactic(auto)]

mod calls;

pub use calls::plan_share;

// What planning a share answers: the length is that of the listing written, the share a number from 1 to 100; both are
// 0 on a refusal. C reads it (`kiwimound_plan_share`).
#[repr(C)]
#[derive(Clone, Copy)]
pub struct SharePlanned {
    pub number: u32,
    pub line: u32,
    pub length: usize,
    pub share: u32,
}
