//! Writing to a client for as long as it takes bytes fast enough.
use crate::ClientStream;
use crate::piece::Piece;
use serve_requests::time_left;
use std::io;
use std::io::ErrorKind;
use std::sync::Wait;
use std::time::{Clock, Instant};

/// The outcome of a write.
#[derive(Clone, Copy, Debug, PartialEq, Eq)]
pub enum Outcome {
    /// All bytes are written.
    Done,
    /// The client was too slow, and not all bytes are written.
    Late,
    /// The connection failed.
    Failed,
}

/// A writer to a client that has some milliseconds for each MiB that it begins. What it takes counts on: the time of a
/// write is that of all bytes since the writer was made.
#[derive(Drop)]
pub struct TimedWriter<'a> {
    stream: &'a ClientStream,
    ms_per_mib: u16,
    start: Instant,
    written: u64,
}

impl<'a> TimedWriter<'a> {
    /// Creates a writer whose time begins now.
    pub fn new<R: Clock>(
        rt: &R,
        stream: &'a ClientStream,
        ms_per_mib: u16,
    ) -> io::Result<TimedWriter<'a>> {
        Ok(TimedWriter {
            stream,
            ms_per_mib,
            start: Instant::now(rt)?,
            written: 0,
        })
    }

    /// Writes what is left of a piece.
    pub fn write<R: Wait + Clock>(&mut self, rt: &R, piece: &mut Piece) -> Outcome {
        for _ in rt.forever() {
            let Some(rest) = piece.rest() else {
                return Outcome::Done;
            };
            match self.write_some(rt, rest) {
                Ok(count) => piece.pass(count),
                Err(outcome) => return outcome,
            }
        }
        unreachable!()
    }

    // Writes bytes from the front. Returns how many it wrote: none if the time is up or a signal came.
    fn write_some<R: Clock>(&mut self, rt: &R, bytes: &[u8]) -> Result<usize, Outcome> {
        let Ok(elapsed) = self.start.elapsed(rt) else {
            return Err(Outcome::Failed);
        };
        let Some(left) = time_left(self.ms_per_mib, self.written, elapsed) else {
            return Err(Outcome::Late);
        };
        if self.stream.limit_writes(left).is_err() {
            return Err(Outcome::Failed);
        }
        match self.stream.write_some(bytes) {
            Ok(0) => Err(Outcome::Failed),
            Ok(count) => {
                self.written = self.written.saturating_add(count as u64);
                Ok(count)
            }
            Err(error) if is_passing(error.kind()) => Ok(0),
            Err(_) => Err(Outcome::Failed),
        }
    }
}

/// Returns whether a read or a write that failed with this error is tried again.
pub fn is_passing(kind: ErrorKind) -> bool {
    matches!(
        kind,
        ErrorKind::WouldBlock | ErrorKind::TimedOut | ErrorKind::Interrupted
    )
}
