// The answer to a line: the question that its words ask, put to the engine that they name.

ghost use Rattle.std.specs.Prelude.{◌≡◌, IfOk, Some};
ghost use Rattle.std.specs.Option.{option_map};
ghost use Rattle.modes.specs.InPlace.{answered, left_by};
ghost use Rattle.questions.specs.Answer.{engine_of, unchained_of, chained_of, operation_of, exactly, contents, question_of, mode_of, said, said_by, answer_to};
ghost use Rattle.questions.specs.Words.{parts};

use crate::question::{Engine, Mode, Operation, Question};
use crate::reply::Reply;
use crate::words::{Words, five_words};
use cipher::{Cipher, block_of, bytes_of};
use hexadecimal::read_word;
use khazad::FieldKhazad;
use modes::{cbc_decipher, cbc_encipher, cmac, ecb_decipher, ecb_encipher};
use refusal::Refusal;
use std::alloc::{AllocError, Global};

// The engine that a word names.
pub fn engine_named(word: &[u8]) -> Option<Engine>
    ensures { result ≡ engine_of word.now }
{
    match word {
        b"khazad-field" => Some(Engine::KhazadField),
        _ => None,
    }
}

// The operation that a word names, of those that take no starting block.
fn unchained_named(word: &[u8]) -> Option<Operation>
    ensures { result ≡ unchained_of word.now }
{
    match word {
        b"ecb-encipher" => Some(Operation::InPlace(Mode::EcbEncipher)),
        b"ecb-decipher" => Some(Operation::InPlace(Mode::EcbDecipher)),
        b"cmac" => Some(Operation::Cmac),
        _ => None,
    }
}

// The operation that a word names, of those that take a starting block.
fn chained_named(word: &[u8], start: u64) -> Option<Operation>
    ensures { result ≡ chained_of word.now start }
{
    match word {
        b"cbc-encipher" => Some(Operation::InPlace(Mode::CbcEncipher(start))),
        b"cbc-decipher" => Some(Operation::InPlace(Mode::CbcDecipher(start))),
        _ => None,
    }
}

// The operation that a word names, with the bytes of its starting block: eight where it takes one, else none.
#[tactic(auto, unfolding(crate::specs::Answer::operation_of))]
pub fn operation_named(word: &[u8], start: &[u8]) -> Option<Operation>
    ensures { result ≡ operation_of word.now start.now }
{
    if start.is_empty() {
        return unchained_named(word);
    }
    let start = <[u8; 8]>::try_from(start).ok()?;
    chained_named(word, block_of(start))
}

// The bytes of a word that writes just as many.
pub fn exact_bytes<const N: usize>(heap: Global, word: &[u8]) -> Result<Option<[u8; N]>, AllocError>
    ensures { IfOk result (λ o. o ≡ exactly N word.now) }
{
    let Some(bytes) = read_word(heap, word)? else {
        return Ok(None);
    };
    Ok(<[u8; N]>::try_from(bytes.as_slice()).ok())
}

// The question that five words ask, if they ask one.
// A `let .. else` stands at each word, and not an error enum with `?`: an error of its own for words that ask nothing would be turned back into `None` at the end.
#[tactic(auto, unfolding(crate::specs::Answer::question_of))]
pub fn read_question(heap: Global, words: &Words<'_>) -> Result<Option<Question>, AllocError>
    ensures { IfOk result (λ o. option_map contents o ≡ question_of (parts words.now)) }
{
    let Some(engine) = engine_named(words.cipher) else {
        return Ok(None);
    };
    let Some(start) = read_word(heap, words.start)? else {
        return Ok(None);
    };
    let Some(operation) = operation_named(words.operation, start.as_slice()) else {
        return Ok(None);
    };
    let Some(key) = exact_bytes::<16>(heap, words.key)? else {
        return Ok(None);
    };
    let Some(text) = read_word(heap, words.text)? else {
        return Ok(None);
    };
    Ok(Some(Question {
        engine,
        operation,
        key,
        text,
    }))
}

// A mode over a buffer, by any cipher.
// It stays a match: a closure for each mode would wrap the same four calls, and name the mode in another place.
fn work_in_place<C: Cipher>(cipher: &C, mode: Mode, buffer: &mut [u8]) -> Result<(), Refusal>
    ensures result { result ≡ answered buffer.old }
    ensures written { buffer.new ≡ left_by (mode_of (C.enciphered (C.key cipher.now)) (C.deciphered (C.key cipher.now)) mode) buffer.old }
{
    match mode {
        Mode::EcbEncipher => ecb_encipher(cipher, buffer),
        Mode::EcbDecipher => ecb_decipher(cipher, buffer),
        Mode::CbcEncipher(start) => cbc_encipher(cipher, start, buffer),
        Mode::CbcDecipher(start) => cbc_decipher(cipher, start, buffer),
    }
}

// What is replied to a question, by any cipher.
fn answer_by<C: Cipher + Drop>(heap: Global, question: Question) -> Result<Reply, AllocError>
    ensures { IfOk result (λ reply. said reply ≡ said_by (C.enciphered question.key) (C.deciphered question.key) question.operation question.text.items) }
{
    let cipher = C::prepare(question.key);
    let mut text = question.text;
    match question.operation {
        Operation::InPlace(mode) => match work_in_place(&cipher, mode, text.as_mut_slice()) {
            Ok(()) => Ok(Reply::Bytes(text)),
            Err(refusal) => Ok(Reply::Refused(refusal)),
        },
        Operation::Cmac => {
            let tag = bytes_of(cmac(&cipher, text.as_slice()));
            Ok(Reply::Bytes(Vec::from_slice(heap, &tag)?))
        }
    }
}

// What is replied to a line, whatever bytes it has.
#[tactic(auto, unfolding(crate::specs::Answer::answer_to))]
pub fn answer(heap: Global, line: &[u8]) -> Result<Reply, AllocError>
    ensures { IfOk result (λ reply. said reply ≡ answer_to line.now) }
{
    let Some(words) = five_words(line) else {
        return Ok(Reply::NotUnderstood);
    };
    let Some(question) = read_question(heap, &words)? else {
        return Ok(Reply::NotUnderstood);
    };
    match question.engine {
        Engine::KhazadField => answer_by::<FieldKhazad>(heap, question),
    }
}
