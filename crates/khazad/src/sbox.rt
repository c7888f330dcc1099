// The box S, worked out from its two mini-boxes.

ghost use Rattle.std.specs.Prelude.{◌≡◌, ◌<◌, slice_index};
ghost use Rattle.std.specs.List.{All};
ghost use Rattle.khazad.specs.Khazad.{S, boxed, exchanged};

// The mini-boxes, P and Q of the cipher: what each makes of a nibble.
const MINI_P: [u8; 16] = [
    0x3, 0xF, 0xE, 0x0, 0x5, 0x4, 0xB, 0xC, 0xD, 0xA, 0x9, 0x6, 0x7, 0x8, 0x2, 0x1,
];

const MINI_Q: [u8; 16] = [
    0x9, 0xE, 0x5, 0x6, 0xA, 0x2, 0x3, 0xC, 0xF, 0x0, 0x4, 0xD, 0x7, 0xB, 0x1, 0x8,
];

// Exchanges the two low bits of the upper nibble with the two high bits of the lower.
fn exchange(nibbles: (u8, u8)) -> (u8, u8)
    requires { (nibbles.0 < 16) × (nibbles.1 < 16) }
    ensures value { result ≡ exchanged nibbles }
    ensures bound { (result.0 < 16) × (result.1 < 16) }
{
    let upper = (nibbles.0 & 0b1100) | (nibbles.1 >> 2);
    let lower = ((nibbles.0 & 0b0011) << 2) | (nibbles.1 & 0b0011);
    (upper, lower)
}

// An upper and a lower nibble, each through a mini-box.
fn boxed(upper: &[u8; 16], lower: &[u8; 16], nibbles: (u8, u8)) -> (u8, u8)
    requires { (nibbles.0 < 16) × (nibbles.1 < 16) }
    ensures value { result ≡ boxed (slice_index upper.now) (slice_index lower.now) nibbles }
    ensures bound { All (λ n. n < 16) upper.now → All (λ n. n < 16) lower.now → (result.0 < 16) × (result.1 < 16) }
{
    (upper[nibbles.0 as usize], lower[nibbles.1 as usize])
}

// S of a byte.
pub fn substitute(x: u8) -> u8
    ensures { result ≡ S x }
{
    let n = exchange(boxed(&MINI_P, &MINI_Q, (x >> 4, x & 15)));
    let n = exchange(boxed(&MINI_Q, &MINI_P, n));
    let (upper, lower) = boxed(&MINI_P, &MINI_Q, n);
    (upper << 4) | lower
}
