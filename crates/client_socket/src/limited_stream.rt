//! A stream that is read and written for a limited time.
use crate::ClientStream;
use std::io;
use std::io::{ErrorKind, Read, Write};
use std::time::{Clock, Duration, Instant};

/// The stream of a client that has some time for all that is read from it and written to it. A time for each read would
/// be as long as the client likes: it begins anew with each byte.
#[derive(Drop)]
pub struct LimitedStream<'a, R> {
    rt: &'a R,
    stream: &'a ClientStream,
    start: Instant,
    limit: Duration,
}

impl<'a, R: Clock> LimitedStream<'a, R> {
    /// Creates the stream of a client whose time began at `start`.
    pub fn new(
        rt: &'a R,
        stream: &'a ClientStream,
        start: Instant,
        limit: Duration,
    ) -> LimitedStream<'a, R> {
        LimitedStream {
            rt,
            stream,
            start,
            limit,
        }
    }

    // Returns the time that is left. `TimedOut` if there is none.
    fn left(&self) -> io::Result<Duration> {
        let left = self.limit.saturating_sub(self.start.elapsed(self.rt)?);
        if left.is_zero() {
            Err(io::Error::from(ErrorKind::TimedOut))
        } else {
            Ok(left)
        }
    }
}

impl<R: Clock> Read for LimitedStream<'_, R> {
    fn read(&mut self, buffer: &mut [u8]) -> io::Result<usize> {
        self.stream.limit_reads(self.left()?)?;
        self.stream.read_some(buffer)
    }
}

impl<R: Clock> Write for LimitedStream<'_, R> {
    fn write(&mut self, bytes: &[u8]) -> io::Result<usize> {
        self.stream.limit_writes(self.left()?)?;
        self.stream.write_some(bytes)
    }

    fn flush(&mut self) -> io::Result<()> {
        Ok(())
    }
}
