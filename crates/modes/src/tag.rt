// CMAC: the check tag of a message, under one key.

ghost use Rattle.std.specs.Prelude.{◌≡◌, ℕ, ◌<◌, ◌≤◌, List, ◌++◌, length, ◌≢◌};
ghost use Rattle.std.specs.List.{All};
ghost use Rattle.cipher.specs.Block.{Byte, Block, be_bytes, be_number, DifferInOneBlock};
ghost use Rattle.modes.specs.Cmac.{doubled, padded, last_block, tag_from, CMAC};

use cipher::{Cipher, block_of};

// The tag of a message of any length, with all 64 bits kept. It never refuses.
// - value: it is the CMAC of the message;
// - one_block_tells: a message that differs from this one inside just one block has another tag;
// - from_header: the tag of a header block and a body is that of the body, chained from the enciphered header.
pub fn cmac<C: Cipher>(cipher: &C, message: &[u8]) -> u64
    ensures value { result ≡ CMAC (C.enciphered (C.key cipher.now)) message.now }
    ensures one_block_tells { (other : List ℕ) → All Byte other → DifferInOneBlock message.now other → result ≢ CMAC (C.enciphered (C.key cipher.now)) other }
    ensures from_header { (header : ℕ) (body : List ℕ) → Block header → 0 < length body → message.now ≡ be_bytes 8 header ++ body → result ≡ tag_from (C.enciphered (C.key cipher.now)) (C.enciphered (C.key cipher.now) header) body }
{
    let mut chain = 0;
    let mut left = message;
    while let Some((block, rest)) = left.split_first_chunk()
        && !rest.is_empty()
    {
        chain = cipher.encipher(chain ^ block_of(*block));
        left = rest;
    }
    cipher.encipher(chain ^ last_block(cipher, left))
}

// The last block as it goes into the chain, from the bytes that are left for it: a whole block under the first subkey,
// fewer bytes padded under the second.
#[tactic(auto, unfolding(crate::specs::Cmac::last_block))]
fn last_block<C: Cipher>(cipher: &C, bytes: &[u8]) -> u64
    requires { length bytes.now ≤ 8 }
    ensures { result ≡ last_block (C.enciphered (C.key cipher.now)) bytes.now }
{
    let k1 = double(cipher.encipher(0));
    let k2 = double(k1);
    match bytes.as_array() {
        Some(block) => k1 ^ block_of(*block),
        None => k2 ^ padded_block(bytes),
    }
}

const TOP_BIT: u64 = 0x8000_0000_0000_0000;

// What a doubled block is reduced by where a bit left it: the standard's R for blocks of 64 bits.
const REDUCTION: u64 = 0x1B;

// Twice a block: shifted left by one, and 0x1B added where the top bit was set.
// Apart from the doubling of bytes in `khazad`: one function for both would need a trait of shifts over `u8` and `u64`.
#[tactic(auto, unfolding(crate::specs::Cmac::doubled))]
fn double(block: u64) -> u64
    ensures { result ≡ doubled block }
{
    if block >= TOP_BIT {
        (block << 1) ^ REDUCTION
    } else {
        block << 1
    }
}

// The byte behind the last of a padded block: the bit 1 and seven zeros.
const PADDING: u8 = 0x80;

// Fewer than eight bytes as a block: behind them the bit 1, and then zeros.
// By the place behind the bytes: a chain of bytes, padding and zeros would be put into the array by places again.
fn padded_block(bytes: &[u8]) -> u64
    requires { length bytes.now < 8 }
    ensures { result ≡ be_number (padded bytes.now) }
{
    let mut block = [0u8; 8];
    block[..bytes.len()].copy_from_slice(bytes);
    block[bytes.len()] = PADDING;
    block_of(block)
}
