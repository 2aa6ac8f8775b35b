// The words of a placing buffer: slot t in word t - 1, ration i in bit i - 1, every other bit 0.
ghost use Rattle.std.specs.Prelude.{◌≡◌, ◌≤◌, length};
ghost use Rattle.common.specs.Buffers.{over};
ghost use Rattle.plan_lines.specs.Sizes.{placing_words};

use plan_lines::sizes::PLACING_WORDS;

// Writes the words of all 96 slots at the front of out, as a planned or held day has them.
pub fn put_words(out: &mut [u64], fed: &[u64; 96])
    requires { (placing_words ≤ length out.old) × (length fed.now ≡ placing_words) }
    ensures { out.new ≡ over fed.now out.old }
{
    out[..PLACING_WORDS].copy_from_slice(fed);
}
