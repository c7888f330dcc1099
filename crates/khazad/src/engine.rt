// Khazad as a block cipher, over every way to work out its layers.

ghost use Rattle.std.specs.Prelude.{◌≡◌};
ghost use Rattle.khazad.specs.Khazad.{K, inverse, α, enciphered as khazad_enciphered, deciphered as khazad_deciphered};
ghost use Rattle.khazad.specs.Blocks.{nine_blocks, on_blocks, rows_of};
ghost use Rattle.cipher.specs.Block.{Key};
ghost use Rattle.khazad.specs.Undo.{khazad_lawful};

use crate::keys::{inverse_keys, round_keys};
use crate::layers::Layers;
use cipher::Cipher;
use std::marker::PhantomData;

// A prepared key: its bytes, and its round keys for either way as blocks, worked out once. `L` works out the layers.
#[derive(Drop)]
pub struct Khazad<L> {
    key: [u8; 16],
    forward: [u64; 9],
    backward: [u64; 9],
    layers: PhantomData<L>,
    ghost key_is_sixteen_bytes: { Key key },
    ghost forward_is_of_key: { forward ≡ nine_blocks (K key) },
    ghost backward_is_of_key: { backward ≡ nine_blocks (inverse (K key)) },
}

// Eight rounds under nine round keys, the last with no θ.
fn run<L: Layers>(keys: &[u64; 9], block: u64) -> u64
    ensures { result ≡ on_blocks (α (rows_of keys.now)) block }
{
    let mut state = block ^ keys[0];
    for key in &keys[1..8] {
        state = L::theta_gamma(state) ^ *key;
    }
    L::gamma(state) ^ keys[8]
}

impl<L: Layers> Cipher for Khazad<L> {
    ghost enciphered = { khazad_enciphered };

    ghost deciphered = { khazad_deciphered };

    ghost key = { λ s. s.key };

    ghost keyed = { λ s. s.key_is_sixteen_bytes };

    ghost lawful = { khazad_lawful };

    fn prepare(bytes: [u8; 16]) -> Khazad<L> {
        let forward = round_keys::<L>(bytes);
        let backward = inverse_keys::<L>(&forward);
        Khazad {
            key: bytes,
            forward,
            backward,
            layers: PhantomData,
        }
    }

    fn encipher(&self, block: u64) -> u64 {
        run::<L>(&self.forward, block)
    }

    fn decipher(&self, block: u64) -> u64 {
        run::<L>(&self.backward, block)
    }
}
