// The walk that the modes share: block after block over a buffer, in place.

ghost use Rattle.std.specs.Prelude.{◌≡◌, OnOk, OnErr};
ghost use Rattle.modes.specs.InPlace.{answered};
ghost use Rattle.modes.specs.Steps.{LeftByCalls};

use cipher::{block_at, put_block};
use refusal::Refusal;

// Writes over each block of the buffer, from the first to the last, what the step makes of it. A buffer that is not whole
// blocks is refused.
pub(crate) fn in_place<F: FnMut(u64) -> u64>(buffer: &mut [u8], mut step: F) -> Result<(), Refusal>
    requires { F.IsAlwaysCallable step }
    ensures result { result ≡ answered buffer.old }
    ensures written { OnOk result (LeftByCalls F.step step buffer.old buffer.new) }
    ensures refused { OnErr result (buffer.new ≡ buffer.old) }
{
    if buffer.len() % 8 != 0 {
        return Err(Refusal::NotWholeBlocks);
    }
    // By places: after `chunks_exact_mut` a proof knows the buffer's length alone, and a cursor by `split_first_chunk_mut` or by
    // `first_chunk_mut` lost what was written, too.
    for at in (0..buffer.len()).step_by(8) {
        let block = block_at(buffer, at);
        put_block(buffer, at, step(block));
    }
    Ok(())
}
