//! Streams of bytes between two threads, which end or fail where a test says.
ghost use Rattle.std.specs.Prelude.{◌≤◌, vec_len};

use crossbeam_channel::{Receiver, Sender, bounded};
use std::alloc::{AllocError, Global};
use std::io;
use std::io::{ErrorKind, Read, Write};
use std::sync::Wait;
use std::time::{Clock, Duration};

/// Writes that a pipe holds before it waits.
const WRITES: usize = 16;

/// How long a reader of foreign bytes waits at most, in seconds. It is stopped long before, unless the bytes are taken.
const PATIENCE_S: u64 = 20;

/// The writing end of a pipe, which fails after a given number of bytes.
#[derive(Drop)]
pub(crate) struct PipeWriter<R: Wait + Drop> {
    rt: R,
    alloc: Global,
    to: Sender<Vec<u8>, Global>,
    left: u64,
}

/// The reading end of a pipe, which fails after a given number of bytes. The input ends when the writing end is
/// dropped.
#[derive(Drop)]
pub(crate) struct PipeReader<R: Wait + Drop> {
    rt: R,
    from: Receiver<Vec<u8>, Global>,
    // What came last, and how many bytes of it were read.
    last: Vec<u8>,
    used: usize,
    left: u64,
    ghost used_is_inside: { used ≤ vec_len last },
}

/// Makes a pipe whose writer fails after `written` bytes, and its reader after `read`.
pub(crate) fn pipe<R: Wait + Copy + Drop>(
    rt: R,
    alloc: Global,
    written: u64,
    read: u64,
) -> Result<(PipeWriter<R>, PipeReader<R>), AllocError> {
    let (to, from) = bounded(alloc, WRITES)?;
    Ok((
        PipeWriter {
            rt,
            alloc,
            to,
            left: written,
        },
        PipeReader {
            rt,
            from,
            last: Vec::new(alloc),
            used: 0,
            left: read,
        },
    ))
}

impl<R: Wait + Clock + Drop> PipeReader<R> {
    // Drops what comes, until the writing end is dropped or nothing comes for a long time.
    fn wait_for_end(&self) {
        let patience = Duration::from_secs(PATIENCE_S);
        for _ in self.rt.forever() {
            if self.from.recv_timeout(&self.rt, patience).is_err() {
                break;
            }
        }
    }
}

// Returns `bytes`, but at most `left`.
fn within(bytes: usize, left: u64) -> usize
    ensures { (result ≤ bytes) × (result ≤ left) }
{
    if bytes as u64 <= left {
        bytes
    } else {
        left as usize
    }
}

impl<R: Wait + Drop> Write for PipeWriter<R> {
    fn write(&mut self, buf: &[u8]) -> io::Result<usize> {
        let count = within(buf.len(), self.left);
        if count == 0 {
            return Err(io::Error::from(ErrorKind::BrokenPipe));
        }
        let mut bytes = Vec::with_capacity(self.alloc, count)?;
        bytes.extend_from_slice(&buf[..count])?;
        if self.to.send(&self.rt, bytes).is_err() {
            return Err(io::Error::from(ErrorKind::BrokenPipe));
        }
        self.left -= count as u64;
        Ok(count)
    }

    fn flush(&mut self) -> io::Result<()> {
        Ok(())
    }
}

impl<R: Wait + Drop> Read for PipeReader<R> {
    fn read(&mut self, buf: &mut [u8]) -> io::Result<usize> {
        if self.left == 0 {
            return Err(io::Error::from(ErrorKind::ConnectionReset));
        }
        if self.used == self.last.len() {
            let Ok(bytes) = self.from.recv(&self.rt) else {
                return Ok(0);
            };
            self.used = 0;
            self.last = bytes;
        }
        let rest = &self.last[self.used..];
        let count = within(buf.len().min(rest.len()), self.left);
        buf[..count].copy_from_slice(&rest[..count]);
        self.used += count;
        self.left -= count as u64;
        Ok(count)
    }
}

/// A reader of these bytes in place of those that come through a pipe. Without bytes its input ends at once; otherwise
/// it ends when the pipe's writing end is dropped, which a pump does when it is stopped, or long after.
#[derive(Drop)]
pub(crate) struct Foreign<R: Wait + Drop> {
    pipe: PipeReader<R>,
    bytes: &'static [u8],
    waits: bool,
}

impl<R: Wait + Drop> Foreign<R> {
    pub(crate) fn new(pipe: PipeReader<R>, bytes: &'static [u8]) -> Foreign<R> {
        Foreign {
            pipe,
            bytes,
            waits: !bytes.is_empty(),
        }
    }
}

impl<R: Wait + Clock + Drop> Read for Foreign<R> {
    fn read(&mut self, buf: &mut [u8]) -> io::Result<usize> {
        if self.bytes.is_empty() && self.waits {
            self.pipe.wait_for_end();
        }
        let count = buf.len().min(self.bytes.len());
        buf[..count].copy_from_slice(&self.bytes[..count]);
        self.bytes = &self.bytes[count..];
        Ok(count)
    }
}
