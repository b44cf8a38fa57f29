//! How much a start copies.
ghost use Rattle.std.specs.Prelude.{◌≡◌, OnOk, Some};
ghost use Rattle.std.specs.Io.KnownBytes.{Appends};
ghost use Rattle.disk_pair.specs.DryRun.{mebibytes, to_copy_text};

use blocks::BLOCK_BYTES;
use std::io::Write;
use std::{fmt, io};

/// How much a start copies from the local image over the peer's.
#[derive(Clone, Copy, Debug, PartialEq, Eq)]
pub struct ToCopy {
    /// How many blocks.
    pub blocks: u32,
}

impl fmt::Display for ToCopy {
    ghost output = { λ copy. Some (to_copy_text copy.blocks) };

    fn fmt<W: fmt::Write>(&self, f: &mut fmt::Formatter<W>) -> fmt::Result {
        let blocks = self.blocks;
        let mebibytes = mebibytes(blocks);
        write!(f, "to copy: {blocks} blocks, {mebibytes} MiB\n")
    }
}

impl ToCopy {
    /// Prints it in a line, and flushes that. The error is that of the output.
    pub fn print<W: Write>(&self, out: &mut W) -> io::Result<()>
        ensures printed { OnOk result (Appends (W.contents out.old) (W.contents out.new) (to_copy_text self.now.blocks)) }
    {
        write!(out, "{self}")?;
        out.flush()
    }
}

/// Returns how many MiB these blocks are, rounded up.
pub fn mebibytes(blocks: u32) -> u64
    ensures { result ≡ mebibytes blocks }
{
    (u64::from(blocks) * BLOCK_BYTES as u64).div_ceil(1_048_576)
}
