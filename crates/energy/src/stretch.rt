// A blower's stretch, and its state.
ghost use Rattle.std.specs.Prelude.{◌≡◌, ◌≤◌, ◌+◌, ◌-◌};

// A blower's state throughout a stretch. Its number, 0 to 2, is what the stretch's line of the listing gives.
#[derive(Clone, Copy, PartialEq, Eq)]
pub enum State {
    Off,
    // idle and on
    Idle,
    Busy,
}

// The number in the stretch's line.
impl From<State> for u32 {
    ghost use Rattle.std.specs.Prelude.{◌≡◌};
    ghost use Rattle.energy.specs.Listed.{number_of};

    ghost from_gives = { λ state number. number ≡ number_of state };

    fn from(state: State) -> u32 {
        match state {
            State::Off => 0,
            State::Idle => 1,
            State::Busy => 2,
        }
    }
}

// A stretch as its line of the listing gives it: its blower, its first and last slot, and its state.
#[derive(Clone, Copy)]
pub struct Stretch {
    pub blower: u32,
    pub first: usize,
    pub last: usize,
    pub state: State,
    pub ghost of_a_day: { (1 ≤ first) × (first ≤ last) × (last ≤ 96) },
}

impl Stretch {
    // How many slots it has.
    pub fn slots(&self) -> usize
        ensures { result ≡ self.now.last + 1 - self.now.first }
    {
        self.last + 1 - self.first
    }
}
