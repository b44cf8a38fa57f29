//! Tests of both pumps over readers and writers that give and take little at a time, fail, and ask for a stop.
use pumps::{Buffer, PumpEnd, pump_in, pump_out};
use session_api::Bell;
use std::alloc::Global;
use std::io;
use std::io::{ErrorKind, Read, Write};
use std::process::Abort;
use std::sync::Wait;
use std::sync::atomic::{AtomicBool, Ordering};
use std::time::Clock;
use thread_link::{Piece, PieceIn, PieceOut, row};

/// A writer that asks for a stop at each write, takes at most `step` bytes, and fails after it took `left`. Every
/// second call is interrupted.
#[derive(Drop)]
struct Trickle<'a> {
    stop: &'a AtomicBool,
    step: usize,
    left: usize,
    interrupts: bool,
    got: Vec<u8>,
}

impl Write for Trickle<'_> {
    fn write(&mut self, buf: &[u8]) -> io::Result<usize> {
        self.stop.store(true, Ordering::SeqCst);
        self.interrupts = !self.interrupts;
        if self.interrupts {
            return Err(ErrorKind::Interrupted.into());
        }
        if self.left == 0 {
            return Err(ErrorKind::BrokenPipe.into());
        }
        let count = self.step.min(self.left).min(buf.len());
        self.got.extend_from_slice(&buf[..count])?;
        self.left -= count;
        Ok(count)
    }

    fn flush(&mut self) -> io::Result<()> {
        Ok(())
    }
}

/// A reader that asks for a stop at each read if `stops`, gives at most `step` bytes, and fails after it gave `left`.
/// Every second call is interrupted.
#[derive(Drop)]
struct Drip<'a> {
    stop: &'a AtomicBool,
    stops: bool,
    step: usize,
    left: usize,
    interrupts: bool,
    rest: &'a [u8],
}

impl Read for Drip<'_> {
    fn read(&mut self, buf: &mut [u8]) -> io::Result<usize> {
        self.stop.store(self.stops, Ordering::SeqCst);
        self.interrupts = !self.interrupts;
        if self.interrupts {
            return Err(ErrorKind::Interrupted.into());
        }
        if self.left == 0 {
            return Err(ErrorKind::ConnectionReset.into());
        }
        let most = self.step.min(self.left).min(buf.len());
        let (front, rest) = self.rest.split_at(most.min(self.rest.len()));
        buf[..front.len()].copy_from_slice(front);
        self.rest = rest;
        self.left -= front.len();
        Ok(front.len())
    }
}

/// Returns `len` bytes that count up, and begin again after 251.
fn counted(rt: &impl Abort, alloc: Global, len: usize) -> Vec<u8> {
    let mut bytes = Vec::with_capacity(alloc, len).expect(rt, "memory");
    for at in 0..len {
        bytes.push((at % 251) as u8).expect(rt, "memory");
    }
    bytes
}

/// Pushes pieces of 1,000 bytes.
fn push_each<R: Wait>(rt: &impl Abort, outward: &mut PieceOut<R>, bytes: &[u8]) {
    for chunk in bytes.chunks_exact(1000) {
        assert!(rt; outward.push(Piece::new(chunk)).is_ok());
    }
}

/// Takes all pieces of a row. Returns their bytes.
fn drain<R: Wait>(rt: &impl Abort, alloc: Global, inward: &mut PieceIn<R>) -> Vec<u8> {
    let mut bytes = Vec::new(alloc);
    for _ in 0..u64::MAX {
        let Some(sheet) = inward.pop() else {
            return bytes;
        };
        let (first, second) = sheet.parts();
        bytes.extend_from_slice(first).expect(rt, "memory");
        bytes.extend_from_slice(second).expect(rt, "memory");
        inward.give_back(sheet);
    }
    bytes
}

/// Returns whether a part is the first `count` bytes.
fn is_front(bytes: &[u8], part: &[u8], count: usize) -> bool {
    part.len() == count && bytes.starts_with(part)
}

/// A writer, and what a pump gives it of 70 pieces of 1,000 bytes. After 66 of them a buffer has no room for the longest
/// frame, and a stop leaves the others in the row.
#[derive(Clone, Copy)]
struct Writer {
    /// The bytes that a write takes at most.
    step: usize,
    /// The bytes that the writer takes until it fails.
    left: usize,
    /// Why the pump ends.
    end: PumpEnd,
    /// The bytes that the writer then has.
    count: usize,
}

const WRITERS: [Writer; 6] = [
    Writer {
        step: 1,
        left: usize::MAX,
        end: PumpEnd::Stopped,
        count: 66_000,
    },
    Writer {
        step: 7,
        left: usize::MAX,
        end: PumpEnd::Stopped,
        count: 66_000,
    },
    Writer {
        step: 1_400,
        left: usize::MAX,
        end: PumpEnd::Stopped,
        count: 66_000,
    },
    Writer {
        step: usize::MAX,
        left: usize::MAX,
        end: PumpEnd::Stopped,
        count: 66_000,
    },
    Writer {
        step: 7,
        left: 0,
        end: PumpEnd::Failed,
        count: 0,
    },
    Writer {
        step: 1_400,
        left: 3_001,
        end: PumpEnd::Failed,
        count: 3_001,
    },
];

/// Writes what is in a row. Returns why the pump ended and what the writer got.
fn pumped_out<R: Wait + Clock>(
    rt: &R,
    alloc: Global,
    inward: &mut PieceIn<R>,
    buffer: &mut Buffer,
    writer: Writer,
) -> (PumpEnd, Vec<u8>) {
    let stop = AtomicBool::new(false);
    let mut trickle = Trickle {
        stop: &stop,
        step: writer.step,
        left: writer.left,
        interrupts: false,
        got: Vec::new(alloc),
    };
    let ended = pump_out(rt, inward, &mut trickle, buffer, &stop, &Bell::new());
    (ended, trickle.got)
}

/// Checks that a writer gets the bytes of the row's pieces, these, in order. Returns what it got.
fn written<R: Wait + Clock + Abort>(
    rt: &R,
    alloc: Global,
    inward: &mut PieceIn<R>,
    buffer: &mut Buffer,
    writer: Writer,
    bytes: &[u8],
) -> Vec<u8> {
    let (ended, got) = pumped_out(rt, alloc, inward, buffer, writer);
    assert_eq!(rt; ended, writer.end, "a writer of {} bytes", writer.step);
    assert!(rt; is_front(bytes, &got, writer.count));
    let kept = drain(rt, alloc, inward);
    assert!(rt; kept.len() == 4_000 && bytes.ends_with(&kept));
    got
}

/// Checks that these bytes come out of the other pump.
fn comes_in<R: Wait + Clock + Abort>(
    rt: &R,
    alloc: Global,
    (outward, inward): (&mut PieceOut<R>, &mut PieceIn<R>),
    buffer: &mut Buffer,
    bytes: &[u8],
) {
    let stop = AtomicBool::new(false);
    let mut reader = bytes;
    let ended = pump_in(rt, outward, &mut reader, buffer, &stop, &Bell::new());
    assert_eq!(rt; ended, PumpEnd::EndOfInput);
    assert!(rt; drain(rt, alloc, inward).as_slice() == bytes);
}

/// Checks that a writer gets the bytes of the row's pieces in order, and that what it got comes out of the other pump.
fn carries<R: Wait + Clock + Copy + Drop + Abort>(rt: R, alloc: Global, writer: Writer) {
    let bytes = counted(&rt, alloc, 70_000);
    let mut buffer = Buffer::new(alloc).expect(&rt, "memory");
    let (mut outward, mut inward) = row(rt, alloc, 80).expect(&rt, "a row");
    push_each(&rt, &mut outward, &bytes);
    let got = written(&rt, alloc, &mut inward, &mut buffer, writer, &bytes);
    comes_in(&rt, alloc, (&mut outward, &mut inward), &mut buffer, &got);
}

#[test]
fn a_writer_gets_the_pieces_in_order(rt: HostRuntime) {
    for writer in WRITERS {
        carries(rt, rt.alloc(), writer);
    }
}

/// A reader of 10,000 bytes, and what a pump pushes of them into a row.
#[derive(Clone, Copy)]
struct Reader {
    /// The bytes that a read gives at most.
    step: usize,
    /// The bytes that the reader gives until it fails.
    left: usize,
    /// Whether it asks for a stop.
    stops: bool,
    /// The row's room in pieces.
    room: usize,
    /// Why the pump ends.
    end: PumpEnd,
    /// The bytes that it pushed.
    count: usize,
}

const READERS: [Reader; 6] = [
    Reader {
        step: 1,
        left: usize::MAX,
        stops: false,
        room: 10_000,
        end: PumpEnd::EndOfInput,
        count: 10_000,
    },
    Reader {
        step: 7,
        left: usize::MAX,
        stops: false,
        room: 10_000,
        end: PumpEnd::EndOfInput,
        count: 10_000,
    },
    Reader {
        step: usize::MAX,
        left: usize::MAX,
        stops: false,
        room: 3,
        end: PumpEnd::EndOfInput,
        count: 10_000,
    },
    Reader {
        step: 7,
        left: 0,
        stops: false,
        room: 3,
        end: PumpEnd::Failed,
        count: 0,
    },
    Reader {
        step: 1_000,
        left: 1_234,
        stops: false,
        room: 3,
        end: PumpEnd::Failed,
        count: 1_234,
    },
    Reader {
        step: usize::MAX,
        left: usize::MAX,
        stops: true,
        room: 2,
        end: PumpEnd::Stopped,
        count: 8_704,
    },
];

/// Pushes what a reader gives of these bytes into a row. Returns why the pump ended.
fn pushed<R: Wait + Clock>(
    rt: &R,
    outward: &mut PieceOut<R>,
    buffer: &mut Buffer,
    bytes: &[u8],
    reader: Reader,
) -> PumpEnd {
    let stop = AtomicBool::new(false);
    let mut drip = Drip {
        stop: &stop,
        stops: reader.stops,
        step: reader.step,
        left: reader.left,
        interrupts: false,
        rest: bytes,
    };
    pump_in(rt, outward, &mut drip, buffer, &stop, &Bell::new())
}

/// Checks that what a reader gives comes out of the row in order.
fn takes<R: Wait + Clock + Copy + Drop + Abort>(rt: R, alloc: Global, reader: Reader) {
    let bytes = counted(&rt, alloc, 10_000);
    let mut buffer = Buffer::new(alloc).expect(&rt, "memory");
    let room = reader.room;
    assert!(rt; room > 0);
    let (mut outward, mut inward) = row(rt, alloc, room).expect(&rt, "a row");
    let ended = pushed(&rt, &mut outward, &mut buffer, &bytes, reader);
    assert_eq!(rt; ended, reader.end, "a reader of {} bytes", reader.step);
    let taken = drain(&rt, alloc, &mut inward);
    assert!(rt; is_front(&bytes, &taken, reader.count));
}

#[test]
fn a_row_gets_the_bytes_in_order(rt: HostRuntime) {
    for reader in READERS {
        takes(rt, rt.alloc(), reader);
    }
}
