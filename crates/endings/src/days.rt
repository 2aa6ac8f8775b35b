// A whole day planned alone: from rations in flat numbers to the listing of its causes.
ghost use Rattle.std.specs.Prelude.{◌≤◌, length, replicate};
ghost use Rattle.placing.specs.Rations.{Rations, demands_from};
ghost use Rattle.plan_lines.specs.Sizes.{causes_bytes};
ghost use Rattle.endings.specs.DayCauses.{DayCauses};

use crate::settling;
use cause_lines::Extent;
use placing::{Words, held, windows};

// Lists the causes of a day of so many slots and blowers from the front of out on; None of a held day, for which
// nothing is written.
pub fn list_day(
    slots: usize,
    blowers: u8,
    rations: usize,
    numbers: &[u32; 256],
    out: &mut [u8],
) -> Option<Extent>
    requires { Rations slots rations numbers.now × (causes_bytes ≤ length out.old) }
    ensures { DayCauses result slots blowers (demands_from slots rations numbers.now) (replicate slots blowers)
        out.old out.new }
{
    let mut free = [0u64; 96];
    windows::mark_windows(&mut free, rations, numbers);
    let volumes = windows::volumes_of(rations, numbers);
    let mut high = [0u8; 96];
    held::set_highs(&mut high, slots, blowers);
    let mut words = Words::new();
    if words.begin(&free, &volumes, &high) {
        let listed = settling::list_stretches(&mut words, out, slots, blowers);
        return Some(listed);
    }
    None
}
