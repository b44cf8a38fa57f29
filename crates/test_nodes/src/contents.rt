//! The bytes of writes.
use blocks::BLOCK_BYTES;
use bytes::Bytes;
use std::alloc::{AllocError, Global};

/// Returns this many blocks, filled with a byte.
pub(crate) fn filled(alloc: Global, blocks: u8, byte: u8) -> Result<Bytes, AllocError> {
    let bytes = Vec::from_elem(alloc, byte, usize::from(blocks) * BLOCK_BYTES)?;
    Ok(Bytes::from_vec(bytes)?)
}
