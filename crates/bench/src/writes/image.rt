//! The bytes of a device.
ghost use Rattle.std.specs.Prelude.{◌≡◌, ◌<◌, ◌≤◌, ◌+◌, ◌*◌, length, IfOk};

use blocks::{BLOCK_BYTES, Refusal};
use std::alloc::Global;

/// What a device holds before the first write: not zeros, so that its memory is present.
const BLANK: u8 = 0xFF;

/// Returns the bytes of a device of `blocks` blocks before the first write. `NoMemory` (7) if memory runs out.
pub(crate) fn blank(alloc: Global, blocks: u32) -> Result<Vec<u8>, Refusal>
    ensures { IfOk result (λ image. length image.items ≡ blocks * 4096) }
{
    Ok(Vec::from_elem(alloc, BLANK, blocks as usize * BLOCK_BYTES)?)
}

/// Returns the bytes of a block.
pub(crate) fn block_in(image: &[u8], block: u32) -> &[u8]
    requires { block * 4096 + 4096 ≤ length image.now }
    ensures { length result.now ≡ 4096 }
{
    let at = block as usize * BLOCK_BYTES;
    &image[at..at + BLOCK_BYTES]
}

/// Replaces a block's bytes.
pub(crate) fn put_block(image: &mut [u8], block: u32, bytes: &[u8])
    requires inside { block * 4096 + 4096 ≤ length image.old }
    requires whole { length bytes.now ≡ 4096 }
    ensures { length image.new ≡ length image.old }
{
    let at = block as usize * BLOCK_BYTES;
    image[at..at + BLOCK_BYTES].copy_from_slice(bytes);
}
