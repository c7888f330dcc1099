// CBC: the blocks of a buffer are chained from a starting block, in place.

ghost use Rattle.std.specs.Prelude.{◌≡◌};
ghost use Rattle.modes.specs.InPlace.{answered, left_by};
ghost use Rattle.modes.specs.Cbc.{cbc_enciphered, cbc_deciphered};

use crate::in_place::in_place;
use cipher::Cipher;
use refusal::Refusal;

// Adds each block of the buffer to the enciphered block before it, the first to the starting block, and enciphers it.
pub fn cbc_encipher<C: Cipher>(cipher: &C, start: u64, buffer: &mut [u8]) -> Result<(), Refusal>
    ensures result { result ≡ answered buffer.old }
    ensures written { buffer.new ≡ left_by (cbc_enciphered (C.enciphered (C.key cipher.now)) start) buffer.old }
    ensures undone { left_by (cbc_deciphered (C.deciphered (C.key cipher.now)) start) buffer.new ≡ buffer.old }
{
    let mut before = start;
    in_place(buffer, |plain| {
        let enciphered = cipher.encipher(plain ^ before);
        before = enciphered;
        enciphered
    })
}

// Deciphers each block of the buffer and adds the enciphered block before it, to the first the starting block. What is
// added next is the block as it came.
pub fn cbc_decipher<C: Cipher>(cipher: &C, start: u64, buffer: &mut [u8]) -> Result<(), Refusal>
    ensures result { result ≡ answered buffer.old }
    ensures written { buffer.new ≡ left_by (cbc_deciphered (C.deciphered (C.key cipher.now)) start) buffer.old }
    ensures undone { left_by (cbc_enciphered (C.enciphered (C.key cipher.now)) start) buffer.new ≡ buffer.old }
{
    let mut before = start;
    in_place(buffer, |block| {
        let plain = cipher.decipher(block) ^ before;
        before = block;
        plain
    })
}
