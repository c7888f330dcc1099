// Bytes as hexadecimal digits: reading them from text and writing them as text.
//
// What is written is read back. Digits of either case are read, lower case is written.
#![tactic(auto)]

mod digits;

pub use digits::{Word, decode, digit_value, encode, read_word, show_bytes};
