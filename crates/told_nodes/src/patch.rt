//! A block with other bytes in a part of it.
ghost use Rattle.std.specs.Prelude.{◌≡◌, ◌+◌, ◌≤◌, length, vec_len, IfErr, IfOk};
ghost use Rattle.blocks.specs.declared.refusal.Refusal.TheVariants.{NoMemory};
ghost use Rattle.device_parts.specs.Places.{laid_over};

use blocks::Refusal;
use bytes::Bytes;

/// Lays these bytes over a block, from its byte `from` on. `NoMemory` (7) if there is no memory for the count of its owners.
pub(crate) fn lay_over(block: Vec<u8>, from: usize, bytes: &Bytes) -> Result<Bytes, Refusal>
    requires { from + length bytes.now ≤ vec_len block }
    ensures laid { IfOk result (λ contents. contents ≡ laid_over from bytes.now block.items) }
    ensures length { IfOk result (λ contents. length contents ≡ vec_len block) }
    ensures refused { IfErr result (λ e. e ≡ NoMemory) }
{
    let mut block = block;
    block[from..from + bytes.len()].copy_from_slice(bytes.as_slice());
    Ok(Bytes::from_vec(block)?)
}
