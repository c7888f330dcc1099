// The layers of a round by products in the field. Each takes eight bytes by value; at the end they are on blocks.

ghost use Rattle.std.specs.Prelude.{◌≡◌, ◌<◌, slice_index};
ghost use Rattle.khazad.specs.Khazad.{γ, θ};

use crate::field::product;
use crate::layers::Layers;
use crate::sbox::substitute;
use cipher::{block_of, bytes_of};
use std::array;

// The matrix of θ, row by row: at row i and column j the entry i ⊕ j of the first row.
const H: [u8; 64] = [
    0x01, 0x03, 0x04, 0x05, 0x06, 0x08, 0x0B, 0x07, 0x03, 0x01, 0x05, 0x04, 0x08, 0x06, 0x07, 0x0B,
    0x04, 0x05, 0x01, 0x03, 0x0B, 0x07, 0x06, 0x08, 0x05, 0x04, 0x03, 0x01, 0x07, 0x0B, 0x08, 0x06,
    0x06, 0x08, 0x0B, 0x07, 0x01, 0x03, 0x04, 0x05, 0x08, 0x06, 0x07, 0x0B, 0x03, 0x01, 0x05, 0x04,
    0x0B, 0x07, 0x06, 0x08, 0x04, 0x05, 0x01, 0x03, 0x07, 0x0B, 0x08, 0x06, 0x05, 0x04, 0x03, 0x01,
];

// S at every byte.
fn gamma(a: [u8; 8]) -> [u8; 8]
    ensures { result ≡ γ a }
{
    array::from_fn(|i| substitute(a[i]))
}

// Byte j of the product by H: the bytes of the row times column j.
fn column(a: [u8; 8], j: usize) -> u8
    requires { j < 8 }
    ensures { result ≡ slice_index (θ a) j }
{
    let mut sum = 0;
    for (row, x) in H.chunks_exact(8).zip(&a) {
        sum ^= product(row[j], *x);
    }
    sum
}

// The bytes, as a row, times H.
pub fn theta(a: [u8; 8]) -> [u8; 8]
    ensures { result ≡ θ a }
{
    array::from_fn(|j| column(a, j))
}

// The layers worked out in the field.
pub struct ByField;

impl Layers for ByField {
    fn gamma(block: u64) -> u64 {
        block_of(gamma(bytes_of(block)))
    }

    fn theta(block: u64) -> u64 {
        block_of(theta(bytes_of(block)))
    }
}
