// ECB: each block of a buffer goes through the cipher by itself, in place.

ghost use Rattle.std.specs.Prelude.{◌≡◌};
ghost use Rattle.modes.specs.InPlace.{answered, left_by};
ghost use Rattle.modes.specs.Ecb.{ecb};

use crate::in_place::in_place;
use cipher::Cipher;
use refusal::Refusal;

// Enciphers each block of the buffer.
pub fn ecb_encipher<C: Cipher>(cipher: &C, buffer: &mut [u8]) -> Result<(), Refusal>
    ensures result { result ≡ answered buffer.old }
    ensures written { buffer.new ≡ left_by (ecb (C.enciphered (C.key cipher.now))) buffer.old }
    ensures undone { left_by (ecb (C.deciphered (C.key cipher.now))) buffer.new ≡ buffer.old }
{
    in_place(buffer, |block| cipher.encipher(block))
}

// Deciphers each block of the buffer.
pub fn ecb_decipher<C: Cipher>(cipher: &C, buffer: &mut [u8]) -> Result<(), Refusal>
    ensures result { result ≡ answered buffer.old }
    ensures written { buffer.new ≡ left_by (ecb (C.deciphered (C.key cipher.now))) buffer.old }
    ensures undone { left_by (ecb (C.enciphered (C.key cipher.now))) buffer.new ≡ buffer.old }
{
    in_place(buffer, |block| cipher.decipher(block))
}
