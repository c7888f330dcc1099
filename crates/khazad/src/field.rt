// The field of 256 elements: bytes as polynomials over two elements, modulo x^8 + x^4 + x^3 + x^2 + 1, or 0x11D.

ghost use Rattle.std.specs.Prelude.{◌≡◌};
ghost use Rattle.khazad.specs.Khazad.{dbl, mul};

// Twice an element. The bit that the shift pushes out stands for x^8, which is 0x1D.
// Apart from the doubling of blocks in `modes`: one function for both would need a trait of shifts over `u8` and `u64`.
fn double(x: u8) -> u8
    ensures { result ≡ dbl x }
{
    (x << 1) ^ ((x >> 7) * 0x1D)
}

// The product of two elements, by the bits of the first.
// The loop counts eight turns and indexes nothing; a fold would carry its three values in a tuple.
pub fn product(a: u8, x: u8) -> u8
    ensures { result ≡ mul a x }
{
    let mut sum = 0;
    let mut bits = a;
    let mut power = x;
    for _turn in 0..8u32 {
        if bits & 1 == 1 {
            sum ^= power;
        }
        bits >>= 1;
        power = double(power);
    }
    sum
}
