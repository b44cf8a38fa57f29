//! The pump from a row to a writer.
ghost use Rattle.std.specs.Prelude.{◌≡◌, ◌≢◌, ◌≤◌, List, ℕ, [], ◌++◌, length, take};
ghost use Rattle.std.specs.Io.KnownBytes.{Appends};
ghost use Rattle.thread_link.specs.Moments.{WasEmpty};
ghost use Rattle.pumps.specs.Carried.{IsCarriedOut, PopsBytes};

use crate::{Buffer, PumpEnd};
use packets::MAX_FRAME_BYTES;
use session_api::Bell;
use std::io::{ErrorKind, Write};
use std::sync::Wait;
use std::sync::atomic::{AtomicBool, Ordering};
use std::time::Clock;
use thread_link::{PieceIn, RingInvariant};

/// Writes the bytes of a row's pieces to a writer, in order, until it is stopped or a write fails. One write carries as
/// many pieces as the row has, until they come to more than 64 KiB. It looks at `stop` only when all that it popped is
/// written, and waits on `work` while the row is empty. It neither closes nor drops the writer: the caller does, and
/// reports its end. Takes no memory.
pub fn pump_out<R: Wait + Clock, M: RingInvariant, W: Write>(
    rt: &R,
    row: &mut PieceIn<R, M>,
    writer: &mut W,
    buffer: &mut Buffer,
    stop: &AtomicBool,
    work: &Bell,
) -> PumpEnd
    ensures written { (rest : List ℕ) × IsCarriedOut row.old row.new (W.contents writer.old) (W.contents writer.new) rest }
    ensures whole { result ≡ PumpEnd.Stopped → IsCarriedOut row.old row.new (W.contents writer.old) (W.contents writer.new) [] }
    ensures ends { result ≢ PumpEnd.EndOfInput }
{
    let mut looks = 0u32;
    for _ in rt.forever() {
        if stop.load(Ordering::SeqCst) {
            return PumpEnd::Stopped;
        }
        let rings = work.rings();
        gather(row, buffer);
        let bytes = buffer.bytes();
        if bytes.is_empty() {
            work.wait(rt, rings, looks);
            looks = looks.saturating_add(1);
            continue;
        }
        looks = 0;
        if write_all(rt, writer, bytes) < bytes.len() {
            return PumpEnd::Failed;
        }
    }
    unreachable!()
}

/// Fills the buffer with the bytes of the pieces that the row has, while there is room for the longest one.
fn gather<R: Wait, M: RingInvariant>(row: &mut PieceIn<R, M>, buffer: &mut Buffer)
    ensures popped { PopsBytes row.old row.new buffer.new }
    ensures empty { buffer.new ≡ [] → WasEmpty M.holds row.new.pieces }
{
    buffer.clear();
    while buffer.room() >= MAX_FRAME_BYTES {
        let Some(sheet) = row.pop() else {
            return;
        };
        let (first, second) = sheet.parts();
        buffer.append(first);
        buffer.append(second);
        row.give_back(sheet);
    }
}

/// Writes the bytes, and returns how many it wrote: all, or fewer if a write failed.
fn write_all<R: Wait, W: Write>(rt: &R, writer: &mut W, bytes: &[u8]) -> usize
    ensures within { result ≤ length bytes.now }
    ensures written { Appends (W.contents writer.old) (W.contents writer.new) (take result bytes.now) }
{
    let mut count = 0;
    while count < bytes.len() {
        let more = write_once(rt, writer, &bytes[count..]);
        if more == 0 {
            return count;
        }
        count += more;
    }
    count
}

/// Writes from the front of the bytes, and returns how many it wrote: none if the write failed. A write that a
/// signal interrupts is tried again.
fn write_once<R: Wait, W: Write>(rt: &R, writer: &mut W, bytes: &[u8]) -> usize
    ensures within { result ≤ length bytes.now }
    ensures written { Appends (W.contents writer.old) (W.contents writer.new) (take result bytes.now) }
{
    for _ in rt.forever() {
        match writer.write(bytes) {
            Ok(count) => return count,
            Err(e) => {
                if e.kind() != ErrorKind::Interrupted {
                    return 0;
                }
            }
        }
    }
    unreachable!()
}
