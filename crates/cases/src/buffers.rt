// Lent buffers, of bytes or of words: the front of a room, what they hold before a call, and a digest of what they hold
// after it.
ghost use Rattle.std.specs.Prelude.{◌≡◌, ℕ, ◌*◌, ◌<◌, length};
ghost use Rattle.cases.specs.Parts.{first_part};
ghost use Rattle.cases.specs.Buffers.{next_byte, next_word, remainder, filled, digest_after};

// What the elements of a lent buffer are.
pub trait Element: Copy + Drop {
    // What the element after an element holds.
    ghost next_element: { Self → Self };

    // An element's remainder modulo 65,521.
    ghost remainder_of: { Self → ℕ };

    // What the first element of a filled buffer holds.
    const FIRST: Self;

    // The same, for clauses.
    ghost FIRST: { Self };

    // What the element after this one holds.
    fn next(self) -> Self
        ensures { result ≡ next_element self };

    // The remainder modulo 65,521.
    fn remainder(self) -> u32
        ensures value { result ≡ remainder_of self }
        ensures below { result < 65521 };
}

// Byte i of a filled buffer has the value (i * 7 + 3) modulo 256.
impl Element for u8 {
    ghost next_element = { next_byte };

    ghost remainder_of = { remainder };

    const FIRST: u8 = 3;

    ghost FIRST = { 3 };

    fn next(self) -> u8 {
        self.wrapping_add(7)
    }

    fn remainder(self) -> u32 {
        u32::from(self)
    }
}

// Word i of a filled buffer has the value (i * 7 + 3) * 0x0101010101010101 modulo 2^64.
impl Element for u64 {
    ghost next_element = { next_word };

    ghost remainder_of = { remainder };

    const FIRST: u64 = 3 * 0x0101010101010101;

    ghost FIRST = { 3 * 0x0101010101010101 };

    fn next(self) -> u64 {
        self.wrapping_add(7 * 0x0101010101010101)
    }

    fn remainder(self) -> u32 {
        (self % 65521) as u32
    }
}

// Gives each element its value of a filled buffer.
pub fn fill<E: Element>(buffer: &mut [E])
    ensures { buffer.new ≡ filled E.FIRST E.next_element (length buffer.old) }
{
    let mut value = E::FIRST;
    for element in buffer {
        *element = value;
        value = value.next();
    }
}

// The front of a room, as long as asked for; nothing where the room is shorter.
pub fn front<E: Element>(room: &mut [E], count: u32) -> &mut [E]
    ensures { result.now ≡ first_part count room.old }
{
    room.get_mut(..count as usize).unwrap_or_default()
}

// The digest of elements that come after others, whose digest is h: for each element h becomes (h * 31 + element)
// modulo 65,521.
pub fn digest_after<E: Element>(h: u32, elements: &[E]) -> u32
    ensures { result ≡ digest_after E.remainder_of h elements.now }
{
    let mut digest = h;
    for element in elements {
        digest = (digest % 65521 * 31 + element.remainder()) % 65521;
    }
    digest
}

// The digest of elements; that of none is 0.
pub fn digest<E: Element>(elements: &[E]) -> u32
    ensures { result ≡ digest_after E.remainder_of 0 elements.now }
{
    digest_after(0, elements)
}
