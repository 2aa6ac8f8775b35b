// The comparison of two sheets.
ghost use Rattle.std.specs.Prelude.{◌≡◌};
ghost use Rattle.comparison.specs.Comparison.{compared_of};

use comparison::Compared;

// Compares the plans of two sheets: same, before or after, said of the first; no on a refusal.
#[unsafe(no_mangle)]
pub extern "C" fn kiwimound_compare(a: &[u8], b: &[u8]) -> Compared
    ensures { result ≡ compared_of a.now b.now }
{
    comparison::compare(a, b)
}
