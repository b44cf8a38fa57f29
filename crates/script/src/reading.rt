//! Printing a pair without a step.
use crate::print;
use blocks::{BLOCK_BYTES, Block, Refusal};
use pair::{Pair, Side};
use std::alloc::Global;
use std::io::{self, Write};

/// Prints both nodes' generation identifiers.
pub(crate) fn tuples<W: Write>(pair: &Pair, out: &mut W) -> io::Result<()> {
    let (own, peer) = pair.tuples();
    writeln!(out, "tuples {own} {peer}")
}

/// Prints the byte that a block is filled with.
pub(crate) fn read<W: Write>(
    pair: &mut Pair,
    side: Side,
    block: Block,
    out: &mut W,
) -> io::Result<()> {
    let mut buffer = [0u8; BLOCK_BYTES];
    match pair.read(side, block, &mut buffer) {
        Ok(()) => {
            let first = buffer[0];
            if buffer.iter().all(|byte| *byte == first) {
                writeln!(out, "read {first:02X}")
            } else {
                writeln!(out, "read mixed")
            }
        }
        Err(refusal) => print::refused(out, "read", refusal),
    }
}

/// Prints the marked blocks, in ascending order.
pub(crate) fn marks<W: Write>(pair: &Pair, out: &mut W) -> io::Result<()> {
    write!(out, "marks")?;
    let mut is_any = false;
    for block in 0..pair.primary().settings().blocks {
        if pair.is_marked(Block(u64::from(block))) {
            is_any = true;
            write!(out, " {block}")?;
        }
    }
    end_of_blocks(is_any, out)
}

/// Prints the blocks in which the two disks differ, in ascending order.
pub(crate) fn diff<W: Write>(pair: &mut Pair, out: &mut W) -> io::Result<()> {
    write!(out, "diff")?;
    let mut is_any = false;
    for block in 0..pair.primary().settings().blocks {
        if pair.differs(Block(u64::from(block))) {
            is_any = true;
            write!(out, " {block}")?;
        }
    }
    end_of_blocks(is_any, out)
}

/// Ends a line of blocks. If there was no block, the line says so.
fn end_of_blocks<W: Write>(is_any: bool, out: &mut W) -> io::Result<()> {
    if is_any {
        writeln!(out)
    } else {
        writeln!(out, " none")
    }
}

/// Prints both status lines.
pub(crate) fn status<W: Write>(alloc: Global, pair: &Pair, out: &mut W) -> io::Result<()> {
    match status::line(alloc, pair) {
        Ok(lines) => write!(out, "{lines}"),
        Err(_) => print::refused(out, "status", Refusal::NoMemory),
    }
}
