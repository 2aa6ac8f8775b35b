// Slot marks: the list that names a set of slots, and how many marks lie where.
#![tactic(auto)]

ghost use Rattle.std.specs.Prelude.{◌≡◌, map, ◌≤◌, length};
ghost use Rattle.common.specs.Lists.{every};
ghost use Rattle.checks.specs.Limits.{max_slots};
ghost use Rattle.marks.specs.Marks.{is_mark, marks_fault};
ghost use Rattle.marks.specs.Counts.{counts_before, marked_in, unmarked_in};
ghost use Rattle.marks.specs.Parts.{CanCount};

// Whether each mark is 0 or 1.
fn are_marks(marks: &[u8]) -> bool
    ensures { result ≡ every (map is_mark marks.now) }
{
    marks.iter().all(|mark| *mark <= 1)
}

// 11: the list is not one mark for each slot.
pub fn is_faulty(slots: usize, marks: &[u8]) -> bool
    ensures { result ≡ marks_fault slots marks.now }
{
    marks.len() != slots || !are_marks(marks)
}

// The marks counted from slot 1 on: place t has how many of the slots 1 to t are marked, and 0 past the day's last
// slot. One pass over the marks serves every window of the set.
pub fn counts_before(marks: &[u8]) -> [u32; 97]
    requires { length marks.now ≤ max_slots }
    ensures { result ≡ counts_before marks.now }
{
    let mut before = [0u32; 97];
    let mut n = 0;
    for (t, mark) in marks.iter().enumerate() {
        if *mark == 1 {
            n += 1;
        }
        before[t + 1] = n;
    }
    before
}

// |E inside Q|: the marks up to a window's last slot, less those before its first.
fn marked_in(before: &[u32; 97], release: usize, deadline: usize) -> u32
    requires { CanCount before.now release deadline }
    ensures { result ≡ marked_in before.now release deadline }
{
    before[deadline] - before[release - 1]
}

// |E outside Q|: a window's length, less the marks in it.
pub fn unmarked_in(before: &[u32; 97], release: u32, deadline: u32) -> u32
    requires { CanCount before.now release deadline }
    ensures { result ≡ unmarked_in before.now release deadline }
{
    deadline + 1 - release - marked_in(before, release as usize, deadline as usize)
}
