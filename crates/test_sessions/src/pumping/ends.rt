//! A reader and a writer over a connection that is lost after some bytes.
use std::io;
use std::io::{ErrorKind, Read, Write};
use std::sync::atomic::{AtomicBool, Ordering};

/// A reader that gives these bytes, and then fails.
#[derive(Drop)]
pub(crate) struct LostReader<'a> {
    pub(crate) rest: &'a [u8],
}

impl Read for LostReader<'_> {
    fn read(&mut self, buf: &mut [u8]) -> io::Result<usize> {
        if self.rest.is_empty() {
            return Err(ErrorKind::ConnectionReset.into());
        }
        let (front, rest) = self.rest.split_at(self.rest.len().min(buf.len()));
        buf[..front.len()].copy_from_slice(front);
        self.rest = rest;
        Ok(front.len())
    }
}

/// A writer that takes `left` bytes, and then fails. It asks for a stop at each write, so that its pump ends in any
/// case.
#[derive(Drop)]
pub(crate) struct LostWriter<'a> {
    pub(crate) stop: &'a AtomicBool,
    pub(crate) left: usize,
    pub(crate) got: Vec<u8>,
}

impl Write for LostWriter<'_> {
    fn write(&mut self, buf: &[u8]) -> io::Result<usize> {
        self.stop.store(true, Ordering::SeqCst);
        if self.left == 0 {
            return Err(ErrorKind::BrokenPipe.into());
        }
        let count = self.left.min(buf.len());
        self.got.extend_from_slice(&buf[..count])?;
        self.left -= count;
        Ok(count)
    }

    fn flush(&mut self) -> io::Result<()> {
        Ok(())
    }
}
