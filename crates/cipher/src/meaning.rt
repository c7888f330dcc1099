// What a 64-bit block cipher means.

ghost use Rattle.std.specs.Prelude.{◌≡◌, ℕ, List};
ghost use Rattle.cipher.specs.Block.{Key};
ghost use Rattle.cipher.specs.Inverse.{Lawful};

// A value is a prepared key. It answers by the two maps of the key that it stands for, as often as it is asked.
pub trait Cipher: Sized {
    // The two maps, of a key's sixteen bytes and a block.
    ghost enciphered: { List ℕ → ℕ → ℕ };

    ghost deciphered: { List ℕ → ℕ → ℕ };

    // The key that a prepared value stands for.
    ghost key: { Self → List ℕ };

    // Makes a key ready for use. It never refuses.
    fn prepare(bytes: [u8; 16]) -> Self
        ensures { key result ≡ bytes };

    fn encipher(&self, block: u64) -> u64
        ensures { result ≡ enciphered (key self.now) block };

    fn decipher(&self, block: u64) -> u64
        ensures { result ≡ deciphered (key self.now) block };

    ghost keyed: { (s : Self) → Key (key s) };

    // Under every key either map undoes the other, and both give blocks.
    ghost lawful: { Lawful enciphered deciphered };
}

// Enciphers a block and deciphers the answer, which gives the block back under every cipher.
pub fn there_and_back<C: Cipher>(cipher: &C, block: u64) -> u64
    ensures { result ≡ block }
{
    cipher.decipher(cipher.encipher(block))
}
