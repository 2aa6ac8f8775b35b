// What is refused, each fault named once, with its number: the checks of a sheet, and what is lent beside it.
// specs/Refusals.antt names the numbers for the definitions. Number 0 stands for no refusal.
ghost use Rattle.std.specs.Prelude.{◌≡◌};
ghost use Rattle.checks.specs.FaultNumbers.{number_of};

use crate::Refusal;

#[derive(Clone, Copy, PartialEq, Eq)]
pub enum Fault {
    // the length of the sheet, the form of its lines
    Length = 1,
    Form = 2,
    // the head line
    Slots = 3,
    Blowers = 4,
    Wake = 5,
    Rations = 6,
    // a ration's line
    Tank = 7,
    Window = 8,
    Volume = 9,
    // what is lent beside the sheet: a buffer that is too short, a list of bounds or slot marks
    Buffer = 10,
    List = 11,
    // the sheet has no sound placing
    Placing = 12,
    // a meal's window, after the one before it
    Meal = 13,
    // the limit of halls behind one mains fuse, or their number
    Halls = 14,
}

impl Fault {
    // The refusal of this fault, which names a line; 0 where it names none.
    pub fn on(self, line: u32) -> Refusal
        ensures { result ≡ record { number = number_of self; line = line } }
    {
        Refusal {
            number: self as u32,
            line,
        }
    }
}
