// What the benchmark times: the modes under the fast engine, for a program in Rust or C to link.
//
// A key crosses as its two halves, each as a block. The call prepares it, works on the text in place and says whether it
// did; a text that is not whole blocks is left as it was. One function for each mode, two blocks for a key and a `bool` for
// an answer: so a program in C or Rust is linked against them, by these names, and neither an array nor a `Result` crosses.
#![tactic(auto)]

ghost use Rattle.std.specs.Prelude.{◌≡◌, ◌++◌};
ghost use Rattle.cipher.specs.Block.{be_bytes, is_whole};
ghost use Rattle.khazad.specs.Khazad.{enciphered as khazad_enciphered};
ghost use Rattle.modes.specs.Cbc.{cbc_enciphered};
ghost use Rattle.modes.specs.Ecb.{ecb};
ghost use Rattle.modes.specs.InPlace.{left_by};

use cipher::Cipher;
use khazad_lookup::LookupKhazad;
use modes::{cbc_encipher, ecb_encipher};

// The key of two halves.
fn key_of(first: u64, second: u64) -> [u8; 16]
    ensures { result ≡ be_bytes 8 first ++ be_bytes 8 second }
{
    (u128::from(first) << 64 | u128::from(second)).to_be_bytes()
}

// ECB enciphering by the lookup engine of Khazad.
#[unsafe(no_mangle)]
pub extern "C" fn buzhnika_khazad_lookup_ecb(first: u64, second: u64, text: &mut [u8]) -> bool
    ensures result { result ≡ is_whole text.old }
    ensures written { text.new ≡ left_by (ecb (khazad_enciphered (be_bytes 8 first ++ be_bytes 8 second))) text.old }
{
    let cipher = LookupKhazad::prepare(key_of(first, second));
    ecb_encipher(&cipher, text).is_ok()
}

// CBC enciphering by the lookup engine of Khazad, from a starting block.
#[unsafe(no_mangle)]
pub extern "C" fn buzhnika_khazad_lookup_cbc(
    first: u64,
    second: u64,
    start: u64,
    text: &mut [u8],
) -> bool
    ensures result { result ≡ is_whole text.old }
    ensures written { text.new ≡ left_by (cbc_enciphered (khazad_enciphered (be_bytes 8 first ++ be_bytes 8 second)) start) text.old }
{
    let cipher = LookupKhazad::prepare(key_of(first, second));
    cbc_encipher(&cipher, start, text).is_ok()
}
