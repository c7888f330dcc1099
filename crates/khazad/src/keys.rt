// The round keys of a key, for either way, as blocks.

ghost use Rattle.std.specs.Prelude.{◌≡◌, ◌<◌};
ghost use Rattle.cipher.specs.Block.{be_bytes, be_number, ◌⊕◌};
ghost use Rattle.khazad.specs.Khazad.{γ, θ, c, K, inverse};
ghost use Rattle.khazad.specs.Blocks.{nine_blocks, rows_of};

use crate::layers::Layers;
use cipher::block_at;
use std::array;

// The number of the last round. Rounds are numbered by `usize`, since the library's `from_fn` and arrays are: a type for a number
// below nine would be made of one at each call, and read back as one at each look-up.
const LAST_ROUND: usize = 8;

// K(r), from K(r - 2), which is `before`, and K(r - 1), which is `last`. c(r), the constant of round r, is γ of the bytes 8r to 8r + 7.
fn next_key<L: Layers>(r: usize, before: u64, last: u64) -> u64
    requires { r < 9 }
    ensures { result ≡ be_number (c r ⊕ θ (γ (be_bytes 8 last)) ⊕ be_bytes 8 before) }
{
    let constant = L::gamma(0x0001_0203_0405_0607 + r as u64 * 0x0808_0808_0808_0808);
    constant ^ L::theta_gamma(last) ^ before
}

// K(0) to K(8).
pub fn round_keys<L: Layers>(key: [u8; 16]) -> [u64; 9]
    ensures { result ≡ nine_blocks (K key) }
{
    // The halves by their places, as `block_at` reads a block; they are needed nowhere else.
    let mut before = block_at(&key, 0);
    let mut last = block_at(&key, 8);
    array::from_fn(
        move |r|
            requires { r < 9 }
        {
            let next = next_key::<L>(r, before, last);
            before = last;
            last = next;
            next
        },
    )
}

// Round key r of the way back.
fn inverse_key<L: Layers>(keys: &[u64; 9], r: usize) -> u64
    requires { r < 9 }
    ensures { result ≡ be_number (inverse (rows_of keys.now) r) }
{
    match r {
        0 => keys[LAST_ROUND],
        LAST_ROUND => keys[0],
        _ => L::theta(keys[LAST_ROUND - r]),
    }
}

// The nine round keys of the way back.
pub fn inverse_keys<L: Layers>(keys: &[u64; 9]) -> [u64; 9]
    ensures { result ≡ nine_blocks (inverse (rows_of keys.now)) }
{
    array::from_fn(|r| inverse_key::<L>(keys, r))
}
