// The greatest share that has a sound placing. It is looked for between two shares, one that has a placing and one from
// which on none has. Before anything is asked, rations spread evenly give the first, and the sum of the volumes the
// second. What is asked about is the greatest share that is left between them, as long as the questions left, seven at
// first, are enough if the answer is no. Then the search leaves marks on the slots that show why, and what smaller
// shares force into these slots tells how many of those have none either, without another question. A question goes on
// from the placing that the one before it left, so that only what is more or less of each ration is placed anew.
ghost use Rattle.std.specs.Prelude.{◌≡◌, ◌==◌, true, ◌+◌, ◌-◌, ◌/◌, ◌≤◌, ◌<◌};
ghost use Rattle.sheet.specs.FeedSheets.{sheet_reading};
ghost use Rattle.cuts.specs.Cuts.{max_share};
ghost use Rattle.cuts.specs.Clauses.{CanAskShares, ShareAnswered, ReadPossible, ReadDeficient, ReadNone, ReadBetween, CanHalve, ShareFound};

use crate::cutting;
use densities::SCALE;
use placing::{Words, held, windows};
use sheet::FeedSheet;

const MAX_SHARE: u32 = 100;

// Halving takes no more questions: 2 to this power is more than 101.
const QUESTIONS: u32 = 7;

// Two shares between which another is looked for.
#[derive(Clone, Copy)]
struct Ends {
    low: u32,
    high: u32,
}

// Whether the sheet cut to a share has a sound placing; where it has none, the marks are left on slots that show why.
// The words have the sheet's blowers for the high of each slot, and hold some placing of its rations with the volumes
// `placed`, before and after; which these are is for the cost, and not promised.
fn can_share(share: u32, sheet: &FeedSheet, placed: &mut [u8; 64], words: &mut Words) -> bool
    requires { CanAskShares (sheet_reading sheet.now) words.old.high placed.old words.old.fed words.old.rest × (share ≤ max_share) }
    ensures share_answered { ShareAnswered share (sheet_reading sheet.now) result words.new.seen }
    ensures can_ask_shares { CanAskShares (sheet_reading sheet.now) words.new.high placed.new words.new.fed words.new.rest }
{
    let cut = cutting::cut_sheet(share, sheet);
    let volumes = windows::volumes_of(cut.rations as usize, &cut.numbers);
    let can = words.begin_again(placed, &volumes);
    *placed = volumes;
    can
}

// Whether the marked slots show that the sheet cut to a share has no sound placing: more is forced into them than the
// blowers can make.
fn is_deficient(share: u32, sheet: &FeedSheet, marks: &[u8]) -> bool
    requires { share ≤ max_share }
    ensures shown { ReadDeficient share (sheet_reading sheet.now) marks.now result }
    ensures none { result ≡ true → ReadNone (sheet_reading sheet.now) share }
{
    let cut = cutting::cut_sheet(share, sheet);
    match questions::shortfall_on(&cut, marks) {
        Ok(shortfall) => 0 < shortfall,
        Err(_) => false,
    }
}

// The half of the shares between two ends in which the least lies that the marked slots show to have no placing.
fn halve(ends: Ends, sheet: &FeedSheet, marks: &[u8]) -> Ends
    requires { ReadNone (sheet_reading sheet.now) ends.high × (ends.low + 1 < ends.high) × (ends.high ≤ max_share + 1) }
    ensures half { ReadDeficient ((ends.low + ends.high) / 2) (sheet_reading sheet.now) marks.now (result.high == (ends.low + ends.high) / 2) }
    ensures none { ReadNone (sheet_reading sheet.now) result.high × (ends.low ≤ result.low) × (result.low < result.high)
        × (result.high ≤ ends.high) × (result.high - result.low < ends.high - ends.low) }
{
    let mid = (ends.low + ends.high) / 2;
    if is_deficient(mid, sheet, marks) {
        Ends { high: mid, ..ends }
    } else {
        Ends { low: mid, ..ends }
    }
}

// The least share between two ends, or the upper one, of which the marked slots show that it has no placing. What is
// promised is that it has none; that it is the least, nothing above rests on.
fn least_deficient(ends: Ends, sheet: &FeedSheet, marks: &[u8]) -> u32
    requires { ReadNone (sheet_reading sheet.now) ends.high × (ends.low < ends.high) × (ends.high ≤ max_share + 1) }
    ensures { ReadNone (sheet_reading sheet.now) result × (ends.low < result) × (result ≤ ends.high) }
{
    let mut left = ends;
    while left.low + 1 < left.high {
        left = halve(left, sheet, marks);
    }
    left.high
}

// A share that has a sound placing for sure: the blowers' room in hundredths of what the rations, spread evenly, need
// in the slot where they need most.
fn spread_share(sheet: &FeedSheet) -> u32
    ensures { ReadPossible (sheet_reading sheet.now) result × (result ≤ max_share) }
{
    let most = densities::greatest_density(sheet.rations as usize, &sheet.numbers);
    let room = SCALE * sheet.blowers;
    if most <= room {
        return MAX_SHARE;
    }
    MAX_SHARE * room / most
}

// The share to ask about: the greatest that is left, where at most `reach` are left if the answer is no. Else one with
// at most `reach` left on both sides, so near the greatest that this can come next if the answer is yes, where it may
// be so near.
fn asked(ends: Ends, reach: u32) -> u32
    requires { (ends.low + 1 < ends.high) × (ends.high ≤ max_share + 1) × CanHalve reach ends.low ends.high }
    ensures { (ends.low < result) × (result < ends.high) × (result ≤ ends.low + reach) × (ends.high ≤ result + reach) }
{
    let greatest = ends.high - 1;
    let most = ends.low + reach;
    if greatest <= most {
        return greatest;
    }
    most.min(greatest - reach / 2)
}

// Asks one question, and moves one of the two ends: the lower one to the share asked about where it has a placing, the
// upper one to it or below where it has none, as far as the slots that show it allow. What is left between them is at
// most `reach`.
fn narrow(
    ends: Ends,
    reach: u32,
    sheet: &FeedSheet,
    placed: &mut [u8; 64],
    words: &mut Words,
) -> Ends
    requires { CanAskShares (sheet_reading sheet.now) words.old.high placed.old words.old.fed words.old.rest
        × ReadBetween (sheet_reading sheet.now) ends.low ends.high × (ends.low + 1 < ends.high) × CanHalve reach ends.low ends.high }
    ensures read_between { ReadBetween (sheet_reading sheet.now) result.low result.high × (result.high - result.low ≤ reach) }
    ensures can_ask_shares { CanAskShares (sheet_reading sheet.now) words.new.high placed.new words.new.fed words.new.rest }
{
    let share = asked(ends, reach);
    if can_share(share, sheet, placed, words) {
        return Ends { low: share, ..ends };
    }
    let slots = sheet.slots as usize;
    let below = Ends {
        high: share,
        ..ends
    };
    let high = least_deficient(below, sheet, &words.seen[..slots]);
    Ends { high, ..ends }
}

// The greatest share for which the cut sheet has a sound placing, with at most seven questions.
pub fn greatest_share(sheet: &FeedSheet) -> u32
    ensures { ShareFound (sheet_reading sheet.now) result }
{
    let slots = sheet.slots as usize;
    let mut words = Words::new();
    let mut placed = [0u8; 64];
    windows::mark_windows(&mut words.rest, sheet.rations as usize, &sheet.numbers);
    held::set_highs(&mut words.high, slots, sheet.blowers as u8);
    let all = [1u8; 96];
    let low = spread_share(sheet);
    let mut ends = Ends {
        low,
        high: MAX_SHARE + 1,
    };
    ends.high = least_deficient(ends, sheet, &all[..slots]);
    for left in (0..QUESTIONS).rev() {
        if ends.high == ends.low + 1 {
            break;
        }
        ends = narrow(ends, 1 << left, sheet, &mut placed, &mut words);
    }
    ends.low
}
