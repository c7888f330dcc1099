// Bytes as hexadecimal digits: reading them from text and writing them as text.
ghost use Rattle.std.specs.Prelude.{◌≡◌, ◌*◌, ◌<◌, ◌≤◌, IfOk, Some, length, vec_items, string_bytes};
ghost use Rattle.std.specs.Option.{option_map};
ghost use Rattle.hexadecimal.specs.Hex.{digit, pair, unhex, mark, hex, word_bytes, shown_bytes};

use std::alloc::{AllocError, Global};
use std::{fmt, str};

// The value of a digit of either case; nothing for any other byte.
pub fn digit_value(c: u8) -> Option<u8>
    ensures { result ≡ digit c }
{
    let value = char::from(c).to_digit(16)?;
    Some(value as u8)
}

// The bytes that a text writes, two digits a byte; nothing where the text is not all pairs of digits.
// It is not the kit's crate `hex`: the error of its `decode` tells which character is no digit and where, while here a text is bytes or none.
#[tactic(auto, unfolding(crate::specs::Hex::unhex))]
pub fn decode(heap: Global, text: &[u8]) -> Result<Option<Vec<u8>>, AllocError>
    ensures { IfOk result (λ o. option_map vec_items o ≡ unhex text.now) }
{
    let mut bytes = Vec::new(heap);
    let mut rest = text;
    while let [high, low, after @ ..] = rest {
        let Some(byte) = byte_value(*high, *low) else {
            return Ok(None);
        };
        bytes.push(byte)?;
        rest = after;
    }
    Ok(rest.is_empty().then_some(bytes))
}

// The digit of a value below 16, in lower case.
fn digit_mark(value: u8) -> u8
    requires { value < 16 }
    ensures { result ≡ mark value }
{
    if value < 10 {
        b'0' + value
    } else {
        b'a' + (value - 10)
    }
}

// How many bytes are written at a time: their digits go out in one write, and not in one for each byte.
const PIECE: usize = 32;

// The digits of a piece, written into an array that has room for those of a whole one. A byte has two places in it, so the loop
// goes by the number of the byte.
fn digits_of<'a>(piece: &[u8], text: &'a mut [u8; 64]) -> &'a str
    requires { length piece.now ≤ 32 }
    ensures { result.now ≡ hex piece.now }
{
    for (i, byte) in piece.iter().enumerate() {
        text[2 * i] = digit_mark(byte / 16);
        text[2 * i + 1] = digit_mark(byte % 16);
    }
    let Ok(digits) = str::from_utf8(&text[..2 * piece.len()]) else {
        unreachable!();
    };
    digits
}

// Bytes that are printed as digits, two a byte, in lower case.
#[derive(Clone, Copy)]
struct Digits<'a> {
    bytes: &'a [u8],
}

impl fmt::Display for Digits<'_> {
    ghost output = { λ digits. Some (hex digits.bytes.now) };

    fn fmt<W: fmt::Write>(&self, f: &mut fmt::Formatter<W>) -> fmt::Result {
        let mut text = [0; 64];
        for piece in self.bytes.chunks(PIECE) {
            f.write_str(digits_of(piece, &mut text))?;
        }
        Ok(())
    }
}

// Bytes that are printed as a word: `-` for none, else their digits.
#[derive(Clone, Copy)]
pub struct Word<'a> {
    pub bytes: &'a [u8],
}

impl fmt::Display for Word<'_> {
    ghost output = { λ word. Some (shown_bytes word.bytes.now) };

    #[tactic(auto, unfolding(crate::specs::Hex::shown_bytes))]
    fn fmt<W: fmt::Write>(&self, f: &mut fmt::Formatter<W>) -> fmt::Result {
        if self.bytes.is_empty() {
            return f.write_str("-");
        }
        write!(f, "{}", Digits { bytes: self.bytes })
    }
}

// The bytes as text, two digits a byte, in lower case. Reading that text gives the bytes again.
// Not by `to_string` of `Digits`, which is slower where the bytes are few.
pub fn encode(heap: Global, bytes: &[u8]) -> Result<String, AllocError>
    ensures written { IfOk result (λ s. string_bytes s ≡ hex bytes.now) }
    ensures read_back { IfOk result (λ s. unhex (string_bytes s) ≡ Some bytes.now) }
{
    let mut text = String::new(heap);
    let mut digits = [0; 64];
    for piece in bytes.chunks(PIECE) {
        text.push_str(digits_of(piece, &mut digits))?;
    }
    Ok(text)
}

// The bytes of a word of a line: `-` stands for none. Nothing for the empty word, and for one that is not all pairs of digits.
#[tactic(auto, unfolding(crate::specs::Hex::word_bytes))]
pub fn read_word(heap: Global, word: &[u8]) -> Result<Option<Vec<u8>>, AllocError>
    ensures { IfOk result (λ o. option_map vec_items o ≡ word_bytes word.now) }
{
    match word {
        [] => Ok(None),
        b"-" => Ok(Some(Vec::new(heap))),
        _ => decode(heap, word),
    }
}

// The word of some bytes: `-` for none, else their digits. Reading that word gives the bytes again.
#[tactic(auto, unfolding(crate::specs::Hex::shown_bytes))]
pub fn show_bytes(heap: Global, bytes: &[u8]) -> Result<String, AllocError>
    ensures written { IfOk result (λ s. string_bytes s ≡ shown_bytes bytes.now) }
    ensures read_back { IfOk result (λ s. word_bytes (string_bytes s) ≡ Some bytes.now) }
{
    if bytes.is_empty() {
        return String::from_str(heap, "-");
    }
    encode(heap, bytes)
}

// The byte of a high and a low digit; nothing where one of the two is no digit.
fn byte_value(high: u8, low: u8) -> Option<u8>
    ensures { result ≡ pair (digit high) (digit low) }
{
    let high = digit_value(high)?;
    let low = digit_value(low)?;
    Some(high * 16 + low)
}
