// Blocks as bytes and as numbers, first byte most significant.

ghost use Rattle.std.specs.Prelude.{◌≡◌, ◌+◌, ◌≤◌, length};
ghost use Rattle.std.specs.List.{between};
ghost use Rattle.std.proofs.Math.Seq.{paste};
ghost use Rattle.cipher.specs.Block.{be_bytes, be_number};

// The eight bytes that write a block.
pub fn bytes_of(block: u64) -> [u8; 8]
    ensures { result ≡ be_bytes 8 block }
{
    block.to_be_bytes()
}

// The block that eight bytes write.
pub fn block_of(bytes: [u8; 8]) -> u64
    ensures { result ≡ be_number bytes }
{
    u64::from_be_bytes(bytes)
}

// The block at a place of some bytes. For the crates above, which know that eight bytes lie there; no host calls it.
// By a place, as `put_block` is: a walk in place reads and writes at one place.
pub fn block_at(bytes: &[u8], at: usize) -> u64
    requires { at + 8 ≤ length bytes.now }
    ensures { result ≡ be_number (between at (at + 8) bytes.now) }
{
    let mut eight = [0u8; 8];
    eight.copy_from_slice(&bytes[at..at + 8]);
    block_of(eight)
}

// Writes a block over the eight bytes at a place. For the crates above, which know that eight bytes lie there; no host calls it.
// By a place: what is written through a chunk that `chunks_exact_mut` lends is not known to a proof.
pub fn put_block(bytes: &mut [u8], at: usize, block: u64)
    requires { at + 8 ≤ length bytes.old }
    ensures { bytes.new ≡ paste bytes.old at (be_bytes 8 block) 8 }
{
    bytes[at..at + 8].copy_from_slice(&bytes_of(block));
}
