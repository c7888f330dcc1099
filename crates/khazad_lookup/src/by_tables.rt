// The layers of a round by the tables, on blocks.

ghost use Rattle.std.specs.Prelude.{◌≡◌, ◌-◌, ◌*◌, ◌^◌, ◌<◌, ℕ};
ghost use Rattle.cipher.specs.Block.{be_bytes};
ghost use Rattle.khazad.specs.Khazad.{S};
ghost use Rattle.khazad_lookup.specs.Table.{table_entry, added};

use crate::tables::eight_tables;
use cipher::bytes_of;
use khazad::Layers;

// The entry of table k at x. Places are numbered by `usize`, as `enumerate` does: a type for a number below eight would be made
// of one at each byte.
fn entry(k: usize, x: u8) -> u64
    requires { k < 8 }
    ensures { result ≡ table_entry k x }
{
    eight_tables()[k][x as usize]
}

// S(x) as byte k of a block of zeros. Table k has S(x) there, since the diagonal of H is all ones.
fn boxed_at(k: usize, x: u8) -> u64
    requires { k < 8 }
    ensures { result ≡ S x * 256 ^ (7 - k) }
{
    entry(k, x) & (0xFF << (56 - 8 * k))
}

// What a function gives of each byte of a block and its place, added up by ⊕.
fn added_up<F: Fn(usize, u8) -> u64>(block: u64, part: F) -> u64
    requires { (k x : ℕ) → k < 8 → x < 256 → F.pre part k x }
    ensures { (f : ℕ → ℕ → ℕ) → ((k x r : ℕ) → k < 8 → x < 256 → F.post part k x r → r ≡ f k x) → result ≡ added f 0 (be_bytes 8 block) }
{
    let a = bytes_of(block);
    let mut sum = 0;
    for (k, x) in a.iter().enumerate() {
        sum ^= part(k, *x);
    }
    sum
}

// The layers worked out by the tables.
pub struct ByTables;

impl Layers for ByTables {
    // S of each byte at its place.
    fn gamma(block: u64) -> u64 {
        added_up(block, boxed_at)
    }

    // γ undoes itself, so θ is γ and then what the tables do.
    fn theta(block: u64) -> u64 {
        Self::theta_gamma(Self::gamma(block))
    }

    // The entry of each byte, in the table of its place.
    fn theta_gamma(block: u64) -> u64 {
        added_up(block, entry)
    }
}
