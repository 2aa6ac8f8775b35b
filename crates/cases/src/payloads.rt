// The parts and the numbers of a payload.
ghost use Rattle.std.specs.Prelude.{◌≡◌, ◌≤◌, length};
ghost use Rattle.cases.specs.Parts.{first_part, second_part};

// The first bytes, as many as asked for; none where there are fewer.
pub fn first_part(s: &[u8], length: usize) -> &[u8]
    ensures { result.now ≡ first_part length s.now }
{
    s.get(..length).unwrap_or_default()
}

// The bytes after the first ones; none where there are fewer.
pub fn second_part(s: &[u8], length: usize) -> &[u8]
    ensures { result.now ≡ second_part length s.now }
{
    s.get(length..).unwrap_or_default()
}

// The number whose digits are among the bytes; the others are passed over. Digits before the last ten are lost.
pub fn number(s: &[u8]) -> u32 {
    let mut value: u64 = 0;
    for b in s {
        if b.is_ascii_digit() {
            value = value % 1000000000 * 10 + (b - b'0') as u64;
        }
    }
    (value % 4294967296) as u32
}

// Takes the numbers that s has, one a line, and answers how many they are; those past the room are left out.
pub fn numbers(s: &[u8], room: &mut [u32]) -> usize
    ensures { result ≤ length room.new }
{
    let mut count = 0;
    for line in s.split_inclusive(|b| *b == b'\n') {
        if count == room.len() {
            break;
        }
        room[count] = number(line);
        count += 1;
    }
    count
}
