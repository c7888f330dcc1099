// Block modes and the check tag, over every 64-bit block cipher.
//
// ECB and CBC after NIST SP 800-38A, both ways, in place on a buffer of whole blocks; CMAC after NIST SP 800-38B over
// any bytes, with all 64 bits kept. Each call is proved once, from the meaning of a cipher alone, and names none.
// A buffer that is not whole blocks is refused and left as it was; a buffer of no bytes is whole blocks.
// Nothing here says that a mode hides or vouches for anything: ECB shows which blocks are equal, and a tag is worth what
// its key and its cipher are worth.
#![tactic(auto)]

mod cbc;
mod ecb;
mod in_place;
mod tag;

pub use cbc::{cbc_decipher, cbc_encipher};
pub use ecb::{ecb_decipher, ecb_encipher};
pub use tag::cmac;
