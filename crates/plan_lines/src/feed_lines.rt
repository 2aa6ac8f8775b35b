// The feed lines of a plan, by slot, then blower: slot, blower, tank, part.
//
// Bit j of word t says whether ration j + 1 is fed in slot t + 1. In a slot the lines go from set bit to set bit:
// rations in sheet order, blowers 1, 2, ..
ghost use Rattle.std.specs.Prelude.{◌+◌, ◌<◌, length};
ghost use Rattle.checks.specs.Limits.{max_rations};
ghost use Rattle.plan_lines.specs.Lines.{feed_lines};
ghost use Rattle.plan_lines.specs.Inputs.{tanks_of, placing_of};
ghost use Rattle.plan_lines.specs.Putting.{Put};
ghost use Rattle.plan_lines.specs.SetBits.{set_bits};
ghost use Rattle.plan_lines.specs.FeedLaws.{word_lines};
ghost use Rattle.plan_lines.specs.FeedSteps.{CanAddParts, PartsAdded, CanPutFeeding, FeedingPut, CanPutSlot, CanPutFeedings};

use line::layout::LINE;

// Adds 1 to the part of each ration that is fed by this word.
fn add_parts(parts: &mut [u32; 64], word: u64)
    requires { CanAddParts parts.old }
    ensures { PartsAdded word parts.old parts.new }
{
    for j in bits::set_bits(word) {
        parts[j as usize] += 1;
    }
}

// Writes the feed line of ration j + 1, whose part is known.
fn put_feeding(
    out: &mut [u8],
    at: usize,
    slot: u32,
    blower: u32,
    j: usize,
    numbers: &[u32; 256],
    parts: &[u32; 64],
)
    requires { CanPutFeeding out.old at j numbers.now parts.now }
    ensures { FeedingPut slot blower j numbers.now parts.now at out.old out.new }
{
    let tank = numbers[4 * j];
    let part = parts[j];
    line::put_line(out, at, slot, blower, tank, part);
}

// Writes the feed lines of one slot from a place of out on, and answers how many. n is counted here, since it is the
// answer too.
fn put_slot(
    out: &mut [u8],
    at: usize,
    slot: u32,
    word: u64,
    numbers: &[u32; 256],
    parts: &[u32; 64],
) -> usize
    requires { CanPutSlot out.old at slot word numbers.now parts.now }
    ensures { Put (word_lines slot numbers.now parts.now 1 (set_bits 0 64 word)) at out.old out.new result }
{
    let mut n = 0;
    for j in bits::set_bits(word) {
        put_feeding(
            out,
            at + LINE * n,
            slot,
            n as u32 + 1,
            j as usize,
            numbers,
            parts,
        );
        n += 1;
    }
    n
}

// Writes the feed lines of all slots, which have a word each, from a place of out on, and answers how many. It costs a
// step for each slot and each feeding.
pub fn put_feedings(out: &mut [u8], at: usize, numbers: &[u32; 256], fed: &[u64]) -> usize
    requires { CanPutFeedings out.old at (length fed.now) numbers.now fed.now }
    ensures { Put (feed_lines (length fed.now) (tanks_of max_rations numbers.now) (placing_of (length fed.now) max_rations fed.now)) at out.old out.new result }
{
    let mut parts = [0u32; 64];
    let mut n = 0;
    for (t, word) in fed.iter().enumerate() {
        let word = *word;
        add_parts(&mut parts, word);
        n += put_slot(out, at + LINE * n, t as u32 + 1, word, numbers, &parts);
    }
    n
}
