// The calls of `questions`.
ghost use Rattle.std.specs.Prelude.{◌≡◌};
ghost use Rattle.questions.specs.Calls.{shortfall_of, bounds_of};

use questions::{BoundsAnswer, ShortfallAnswer};

// The shortfall of the marked slots of a sheet's day.
#[unsafe(no_mangle)]
pub extern "C" fn kiwimound_shortfall(b: &[u8], marks: &[u8]) -> ShortfallAnswer
    ensures { result ≡ shortfall_of b.now marks.now }
{
    questions::shortfall(b, marks)
}

// Whether a sound placing exists under a low and a high for each slot.
#[unsafe(no_mangle)]
pub extern "C" fn kiwimound_bounds(b: &[u8], lows: &[u32], highs: &[u32]) -> BoundsAnswer
    ensures { result ≡ bounds_of b.now lows.now highs.now }
{
    questions::bounds(b, lows, highs)
}
