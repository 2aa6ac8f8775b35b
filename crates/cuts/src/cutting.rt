// The sheet of a share.
ghost use Rattle.std.specs.Prelude.{◌≡◌, ◌≤◌};
ghost use Rattle.checks.specs.Limits.{max_slots};
ghost use Rattle.sheet.specs.FeedSheets.{sheet_reading};
ghost use Rattle.cuts.specs.Cuts.{max_share, cut_volume};
ghost use Rattle.cuts.specs.Clauses.{CutFrom};

use line::layout::FIELDS;
use sheet::FeedSheet;

// A volume cut to a share, rounded down.
fn cut_volume(share: u32, volume: u32) -> u32
    requires { (share ≤ max_share) × (volume ≤ max_slots) }
    ensures { result ≡ cut_volume share volume }
{
    volume * share / 100
}

// The sheet cut to a share: each volume is cut, and all else is as it was.
pub fn cut_sheet(share: u32, sheet: &FeedSheet) -> FeedSheet
    requires { share ≤ max_share }
    ensures { CutFrom share (sheet_reading sheet.now) (sheet_reading result) }
{
    let mut numbers = sheet.numbers;
    for j in 0..sheet.rations as usize {
        let at = FIELDS * j + 3;
        numbers[at] = cut_volume(share, numbers[at]);
    }
    FeedSheet {
        slots: sheet.slots,
        blowers: sheet.blowers,
        wake: sheet.wake,
        rations: sheet.rations,
        numbers,
    }
}
