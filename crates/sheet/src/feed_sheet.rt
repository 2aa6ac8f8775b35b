// An accepted sheet.
ghost use Rattle.sheet.specs.Accepted.{IsAccepted, is_accepted_prop};

// The numbers of a sheet that no check refused: a function that takes one requires nothing more of it. The flat numbers
// stay beside the count of rations, as the specification has them (docs/specification.md, section 16), in fixed memory.
#[derive(Clone, Copy)]
pub struct FeedSheet {
    pub slots: u32,
    pub blowers: u32,
    pub wake: u32,
    pub rations: u32,
    // four numbers for each ration, in sheet order: tank, first slot, last slot, volume; 0 past the last ration
    pub numbers: [u32; 256],
    pub ghost accepted: { IsAccepted slots blowers wake rations numbers } by { is_accepted_prop slots blowers wake rations numbers },
}
