// Windows in words: a word for each slot, in which bit j says that the slot is in the window of ration j. Windows and
// volumes stay two values: `begin_again` takes volumes alone, twice, and `cuts` writes windows into a placing's words.
// The flat numbers come with the count of rations, as `Rations` and `demands_from` of specs/Rations.antt speak of them.
ghost use Rattle.std.specs.Prelude.{◌≡◌, replicate};
ghost use Rattle.checks.specs.Limits.{max_slots};
ghost use Rattle.placing.specs.Rations.{demands_from, Rations};
ghost use Rattle.placing.specs.Words.{CanMark, Marked, WindowWords, VolumeBytes};

// Sets bit j in the words of a window's slots.
fn mark_window(windows: &mut [u64; 96], j: u32, release: usize, deadline: usize)
    requires { CanMark windows.old j release deadline }
    ensures { Marked j release deadline windows.old windows.new }
{
    for t in release - 1..deadline {
        windows[t] = bits::add_bit(windows[t], j);
    }
}

// The windows of n rations into words that are 0, in a day as long as can be: words past the last deadline stay 0. The
// words are lent, so that they are not copied on the way back.
pub fn mark_windows(windows: &mut [u64; 96], n: usize, numbers: &[u32; 256])
    requires { Rations max_slots n numbers.now × (windows.old ≡ replicate max_slots 0) }
    ensures { WindowWords max_slots (demands_from max_slots n numbers.now) windows.new }
{
    for j in 0..n {
        let at = 4 * j;
        mark_window(
            windows,
            j as u32,
            numbers[at + 1] as usize,
            numbers[at + 2] as usize,
        );
    }
}

// The volumes of n rations, 0 past the last.
pub fn volumes_of(n: usize, numbers: &[u32; 256]) -> [u8; 64]
    requires { Rations max_slots n numbers.now }
    ensures { VolumeBytes (demands_from max_slots n numbers.now) result }
{
    let mut volumes = [0u8; 64];
    for j in 0..n {
        volumes[j] = numbers[4 * j + 3] as u8;
    }
    volumes
}
