//! The two nodes, each at the ends of two rows.
ghost use Rattle.std.specs.Prelude.{◌<◌, IfOk};
ghost use Rattle.endpoint.specs.Calls.{IsNewIn, IsNewOut};
ghost use Rattle.thread_link.specs.Inward.{taking};
ghost use Rattle.thread_link.specs.Outward.{sending};

use bitmap::Bitmap;
use blocks::{BLOCK_BYTES, ConnectionWords, MemStore, Refusal, Settings, Tuple};
use bytes::Bytes;
use session_nodes::{SessionPrimary, SessionSecondary, Unknown};
use std::alloc::Global;
use std::sync::Wait;
use thread_link::{PieceIn, PieceOut, RuledIn, RuledOut, frame_row, row};

/// Frames or pieces of a row: more than a recorded stream has.
const ROOM: usize = 1_024;

/// Writes of the session.
const WRITES: u64 = 24;

const SETTINGS: Settings = Settings {
    blocks: 16,
    max_epoch: 4,
    ..Settings::STANDARD
};

/// The identifiers of the primary's disk.
const OWN: Tuple = Tuple {
    current: 1,
    bitmap: 0,
    first_historical: 0,
    second_historical: 0,
};

/// The words of its connection.
const WORDS: ConnectionWords = ConnectionWords { sync: 5, loss: 7 };

/// A primary at the ends of two rows.
pub(crate) type RowPrimary<R> = SessionPrimary<Unknown, RuledOut<R>, RuledIn<R>, MemStore>;

/// A secondary at the ends of two rows.
pub(crate) type RowSecondary<R> = SessionSecondary<Unknown, RuledOut<R>, RuledIn<R>, MemStore>;

/// The other ends of a node's two rows.
#[derive(Drop)]
pub(crate) struct RowEnds<R: Wait + Drop> {
    /// Gives what the node sent.
    pub(crate) sent: PieceIn<R>,
    /// Takes what the node is to receive.
    pub(crate) to_take: PieceOut<R>,
}

// Makes two rows. Returns the node's ends, and the other ends. Here and below a `match` stands where `?` would do: each `?` beside ends
// or a node is a way out that drops them, and that they can be dropped is proved once more on each such way.
fn rows<R: Wait + Copy + Drop>(
    rt: R,
    alloc: Global,
) -> Result<((RuledOut<R>, RuledIn<R>), RowEnds<R>), Refusal>
    ensures { IfOk result (λ r. IsNewOut (sending r.0.0) × IsNewIn (taking r.0.1)) }
{
    let (pushed, sent) = frame_row(rt, alloc, ROOM)?;
    let (to_take, popped) = row(rt, alloc, ROOM)?;
    match RuledIn::new(alloc, popped) {
        Ok(incoming) => Ok(((RuledOut::new(pushed), incoming), RowEnds { sent, to_take })),
        Err(refusal) => Err(refusal),
    }
}

/// Opens a primary over a disk filled with zeros.
pub(crate) fn open_primary<R: Wait + Copy + Drop>(
    rt: R,
    alloc: Global,
) -> Result<(RowPrimary<R>, RowEnds<R>), Refusal> {
    let disk = MemStore::zeroed(alloc, SETTINGS.blocks)?;
    let marks = Bitmap::unmarked(alloc, u64::from(SETTINGS.blocks))?;
    let (ends, rows) = rows(rt, alloc)?;
    match SessionPrimary::open(alloc, SETTINGS, disk, OWN, marks, ends, WORDS) {
        Ok(node) => Ok((node, rows)),
        Err(refusal) => Err(refusal),
    }
}

/// Opens a secondary over a disk filled with zeros.
pub(crate) fn open_secondary<R: Wait + Copy + Drop>(
    rt: R,
    alloc: Global,
) -> Result<(RowSecondary<R>, RowEnds<R>), Refusal> {
    let disk = MemStore::zeroed(alloc, SETTINGS.blocks)?;
    let (ends, rows) = rows(rt, alloc)?;
    match SessionSecondary::open(alloc, SETTINGS, disk, Tuple::new(0, 0, 0, 0), ends) {
        Ok(node) => Ok((node, rows)),
        Err(refusal) => Err(refusal),
    }
}

/// Submits the write of this number, counted from 0, if there is one. Returns the number of the next write, which is
/// the same one if it was not accepted.
pub(crate) fn submit<R: Wait + Drop>(
    alloc: Global,
    node: &mut RowPrimary<R>,
    write: u64,
) -> Result<u64, Refusal> {
    if write >= WRITES {
        return Ok(write);
    }
    let bytes = contents(alloc, write)?;
    match node.submit(write * 5 % 12, &bytes) {
        Ok(_) => Ok(write + 1),
        Err(_) => Ok(write),
    }
}

// Returns the contents of a write: one to four blocks.
fn contents(alloc: Global, write: u64) -> Result<Bytes, Refusal>
    requires { write < 24 }
{
    let blocks = (write % 4 + 1) as usize;
    let bytes = Vec::from_elem(alloc, write as u8, blocks * BLOCK_BYTES)?;
    Ok(Bytes::from_vec(bytes)?)
}

/// Does what a primary can do without a frame. A call that has nothing to do is refused, and changes nothing.
pub(crate) fn work_primary<R: Wait + Drop>(node: &mut RowPrimary<R>) {
    let _ = node.write_next();
    let _ = node.resync_next();
    let _ = node.send();
}

/// Does what a secondary can do without a frame.
pub(crate) fn work_secondary<R: Wait + Drop>(node: &mut RowSecondary<R>) {
    let _ = node.apply_next();
    let _ = node.ack_out();
}
