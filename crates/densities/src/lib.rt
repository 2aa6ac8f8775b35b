// Rations spread evenly over their windows: the density of a ration is its volume divided by the length of its window.
// Where the densities of the rations in whose windows a slot is add up to no more than the blowers, in every slot, no
// more is forced into any set of slots than its blowers can make (specs/SpreadLaws.antt), and so a sound placing
// exists. To see that takes no search; where they add up to more, nothing follows.
#![tactic(auto)]

ghost use Rattle.std.specs.Prelude.{◌≡◌, ◌≤◌, max};
ghost use Rattle.std.specs.List.{fold};
ghost use Rattle.checks.specs.Limits.{max_slots};
ghost use Rattle.placing.specs.Rations.{Rations};
ghost use Rattle.placing.specs.Words.{Added};
ghost use Rattle.densities.specs.Densities.{density, CanAdd, DensitySums, DensityMost};

use checks::limits::MAX_SLOTS;
use line::layout::FIELDS;

// A density is counted in so many parts of a feeding.
pub const SCALE: u32 = 4096;

// The slots of the longest day.
const SLOTS: usize = MAX_SLOTS as usize;

// A ration's density, rounded up; `span` is how many slots its window has.
fn density_of(volume: u32, span: u32) -> u32
    requires { (1 ≤ span) × (span ≤ max_slots) × (volume ≤ span) }
    ensures { result ≡ density volume span }
{
    (SCALE * volume + (span - 1)) / span
}

// Adds so many parts, a ration's density, in each slot of its window. `placing` marks windows by a loop like this one,
// over words and by bits: a function over both would be handed all but the `for`.
fn add_density(sums: &mut [u32; SLOTS], release: usize, deadline: usize, parts: u32)
    requires { CanAdd sums.old release deadline parts }
    ensures { Added parts release deadline sums.old sums.new }
{
    for t in release - 1..deadline {
        sums[t] += parts;
    }
}

// The densities of n rations, added up slot by slot.
fn density_sums(n: usize, numbers: &[u32; 256]) -> [u32; SLOTS]
    requires { Rations max_slots n numbers.now }
    ensures { DensitySums n numbers.now result }
{
    let mut sums = [0u32; SLOTS];
    for j in 0..n {
        let at = FIELDS * j;
        let release = numbers[at + 1];
        let deadline = numbers[at + 2];
        let parts = density_of(numbers[at + 3], deadline + 1 - release);
        add_density(&mut sums, release as usize, deadline as usize, parts);
    }
    sums
}

// The greatest of some numbers, 0 of none.
fn greatest(numbers: &[u32]) -> u32
    ensures { result ≡ fold max 0 numbers.now }
{
    numbers.iter().copied().fold(0, u32::max)
}

// The greatest of the sums. What is promised is that no slot has more; that one has as much, nothing above rests on.
pub fn greatest_density(n: usize, numbers: &[u32; 256]) -> u32
    requires { Rations max_slots n numbers.now }
    ensures { DensityMost n numbers.now result }
{
    greatest(&density_sums(n, numbers))
}
