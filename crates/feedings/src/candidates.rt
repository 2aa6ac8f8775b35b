// The rations that may be fed in a slot, as a word: those fed in the slots of a set around it that no ration fed in the
// set can leave.
ghost use Rattle.std.specs.Prelude.{◌≡◌, length, replicate};
ghost use Rattle.grid.specs.Grid.{slots};
ghost use Rattle.feedings.specs.CellChoice.{FedMarked};

use grid::SLOTS;

// The rations fed in the marked slots.
pub fn fed_marked(fed: &[u64; SLOTS], seen: &[u8; SLOTS]) -> u64
    requires { (length fed.now ≡ slots) × (length seen.now ≡ slots) }
    ensures { FedMarked result fed.now seen.now }
{
    let mut word = 0;
    for u in 0..SLOTS {
        if seen[u] != 0 {
            word |= fed[u];
        }
    }
    word
}

// The rations fed in some slot.
pub fn fed_somewhere(fed: &[u64; SLOTS]) -> u64
    requires { length fed.now ≡ slots }
    ensures { FedMarked result fed.now (replicate slots 1) }
{
    fed_marked(fed, &[1; SLOTS])
}
