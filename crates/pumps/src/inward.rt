//! The pump from a reader into a row.
ghost use Rattle.std.specs.Prelude.{◌≡◌, ◌≢◌, ◌≤◌, ◌<◌, List, ℕ, [], ◌++◌, length, take, IfErr, MatchResult, Err};
ghost use Rattle.std.specs.Io.KnownBytes.{Consumes, IsAtEnd, Keeps};
ghost use Rattle.thread_link.specs.Moments.{WasFull};
ghost use Rattle.pumps.specs.Carried.{IsCarriedIn, PushesBytes};

use crate::{Buffer, PumpEnd};
use session_api::Bell;
use std::io::{ErrorKind, Read};
use std::sync::Wait;
use std::sync::atomic::{AtomicBool, Ordering};
use std::time::Clock;
use thread_link::{PIECE_BYTES, Piece, PieceOut, RingInvariant};

/// Pushes the bytes that a reader gives into a row, in order, as pieces of at most 4,352 bytes of a first connection,
/// until it is stopped, the input ends or a read fails. One read takes up to 196,640 bytes. It rings `work` once all
/// bytes of a read are pushed, and before it waits for room: most frames have several pieces, and nobody can take a part
/// of one. If the row is full it tries again; a stop then leaves the remaining bytes unpushed. It neither closes nor drops
/// the reader: the caller does, and reports its end. Takes no memory.
pub fn pump_in<R: Wait + Clock, M: RingInvariant, D: Read>(
    rt: &R,
    row: &mut PieceOut<R, M>,
    reader: &mut D,
    buffer: &mut Buffer,
    stop: &AtomicBool,
    work: &Bell,
) -> PumpEnd
    ensures pushed { (rest : List ℕ) × IsCarriedIn row.old row.new (D.remaining reader.old) (D.remaining reader.new) rest }
    ensures whole { result ≢ PumpEnd.Stopped → IsCarriedIn row.old row.new (D.remaining reader.old) (D.remaining reader.new) [] }
    ensures end { result ≡ PumpEnd.EndOfInput → IsAtEnd (D.remaining reader.new) }
{
    for _ in rt.forever() {
        if stop.load(Ordering::SeqCst) {
            return PumpEnd::Stopped;
        }
        if let Err(end) = read_once(rt, reader, buffer) {
            return end;
        }
        let bytes = buffer.bytes();
        if push_all(rt, row, bytes, stop, work) < bytes.len() {
            return PumpEnd::Stopped;
        }
    }
    unreachable!()
}

/// Reads once into the buffer. `EndOfInput` if there is nothing more to read, and `Failed` if the read failed.
/// A read that a signal interrupts is tried again.
fn read_once<R: Wait, D: Read>(rt: &R, reader: &mut D, buffer: &mut Buffer) -> Result<(), PumpEnd>
    ensures read { MatchResult result
        (λ _. Consumes (D.remaining reader.old) (D.remaining reader.new) buffer.new)
        (λ _. Consumes (D.remaining reader.old) (D.remaining reader.new) []) }
    ensures end { result ≡ Err PumpEnd.EndOfInput → IsAtEnd (D.remaining reader.new) }
    ensures ends { IfErr result (λ end. end ≢ PumpEnd.Stopped) }
{
    for _ in rt.forever() {
        match buffer.read_from(reader) {
            Ok(0) => return Err(PumpEnd::EndOfInput),
            Ok(_) => return Ok(()),
            Err(e) => {
                if e.kind() != ErrorKind::Interrupted {
                    return Err(PumpEnd::Failed);
                }
            }
        }
    }
    unreachable!()
}

/// Pushes the bytes, and returns how many it pushed: all, or fewer if it was stopped at a full row.
fn push_all<R: Wait + Clock, M: RingInvariant>(
    rt: &R,
    row: &mut PieceOut<R, M>,
    bytes: &[u8],
    stop: &AtomicBool,
    work: &Bell,
) -> usize
    ensures within { result ≤ length bytes.now }
    ensures pushed { PushesBytes row.old row.new (take result bytes.now) }
{
    let mut count = 0;
    let mut looks = 0u32;
    for _ in rt.forever() {
        if count == bytes.len() {
            work.ring_one(rt);
            return count;
        }
        let rings = work.rings();
        let more = push_once(row, &bytes[count..]);
        if more > 0 {
            count += more;
            looks = 0;
        } else if stop.load(Ordering::SeqCst) {
            return count;
        } else {
            // The ring ends this wait too: the row is asked once more, and only then waited for.
            if looks == 0 {
                work.ring_one(rt);
            }
            work.wait(rt, rings, looks);
            looks = looks.saturating_add(1);
        }
    }
    unreachable!()
}

/// Pushes a piece from the front of the bytes, and returns how many it pushed: none if the row was full.
fn push_once<R: Wait, M: RingInvariant>(row: &mut PieceOut<R, M>, bytes: &[u8]) -> usize
    requires { 0 < length bytes.now }
    ensures within { result ≤ length bytes.now }
    ensures pushed { PushesBytes row.old row.new (take result bytes.now) }
    ensures full { result ≡ 0 → WasFull M.holds row.old.row row.old.pieces }
{
    let front = &bytes[..bytes.len().min(PIECE_BYTES)];
    match row.push(Piece::new(front)) {
        Ok(()) => front.len(),
        Err(_) => 0,
    }
}
