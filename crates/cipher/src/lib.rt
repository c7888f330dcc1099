// The meaning of a 64-bit block cipher, and blocks as bytes and as numbers.
//
// `Cipher` says what a block cipher is: two maps from keys and blocks to blocks that undo each other. Code that is
// generic over it rests on that meaning alone, and is proved once, for every cipher that has it.
// Nothing here says that a cipher hides anything: the trait's laws are about the maps being inverse.
#![tactic(auto)]

mod block;
mod meaning;

pub use block::{block_at, block_of, bytes_of, put_block};
pub use meaning::{Cipher, there_and_back};
