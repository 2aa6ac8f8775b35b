// The product of two numbers of 32 bits, with what passes 32 bits dropped. The specification has it made of
// `wrapping_add_u32`, a step for each binary digit (docs/specification.md, section 16), and so it is not
// `wrapping_mul`.
ghost use Rattle.std.specs.Prelude.{◌≡◌, ◌*◌, ◌%◌, ◌^◌};

// x times y, modulo 2^32, in a step for each binary digit of x: y is doubled for the next digit, and added where the
// digit is 1.
pub fn wrapping_product(x: u32, y: u32) -> u32
    ensures { result ≡ (x * y) % 2 ^ 32 }
{
    let mut sum = 0;
    let mut left = x;
    let mut doubled = y;
    while left != 0 {
        if left % 2 == 1 {
            sum = std::num::wrapping_add_u32(sum, doubled);
        }
        doubled = std::num::wrapping_add_u32(doubled, doubled);
        left /= 2;
    }
    sum
}
