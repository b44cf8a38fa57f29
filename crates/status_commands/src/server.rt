//! A question to the status socket of a server.
use crate::answer::{PageAnswer, read_answer};
use crate::told::Told;
use std::alloc::{AllocError, Global};
use std::io::{ErrorKind, Read, Write};
use std::net::Net;
use std::os::unix::net::UnixStream;
use std::sync::Wait;
use std::time::{Clock, Duration, Instant};
use std::{fmt, io};

/// The question for the lines of a status page.
const QUESTION: &[u8] = b"GET / HTTP/1.1\r\nhost: localhost\r\nconnection: close\r\n\r\n";

/// How long a server may take for its answer, in seconds: it gives one within two, or says that it has none.
pub(crate) const PATIENCE_S: u64 = 5;

/// The most bytes of an answer.
const MOST_BYTES: usize = 65_536;

/// The most bytes that are read at once.
const BUFFER_BYTES: usize = 4096;

/// Why a server gave no status.
#[derive(Drop)]
pub(crate) enum NoAnswer {
    /// Nobody answers at its socket.
    Unreached(io::Error),
    /// The answer did not come, or not in time.
    Unread(io::Error),
    /// The server has no status now.
    Unavailable,
    /// What came is not the page of a server, or too long.
    Strange,
    /// There was no memory.
    NoMemory,
}

impl From<AllocError> for NoAnswer {
    fn from(_: AllocError) -> NoAnswer {
        NoAnswer::NoMemory
    }
}

impl fmt::Display for NoAnswer {
    fn fmt<W: fmt::Write>(&self, f: &mut fmt::Formatter<W>) -> fmt::Result {
        match self {
            NoAnswer::Unreached(error) => write!(f, "no server answers: {error}"),
            NoAnswer::Unread(error) if is_late(error) => f.write_str(
                "the answer did not come in time",
            ),
            NoAnswer::Unread(error) => write!(f, "the answer did not come: {error}"),
            NoAnswer::Unavailable => f.write_str(
                "the server gives no status now: its images are compared, a session gives way to the next, or a disk does not answer",
            ),
            NoAnswer::Strange => f.write_str("what answers is no status page of a server"),
            NoAnswer::NoMemory => f.write_str("there was no memory"),
        }
    }
}

// Returns whether a read or a write has had its time.
fn is_late(error: &io::Error) -> bool {
    matches!(error.kind(), ErrorKind::WouldBlock | ErrorKind::TimedOut)
}

/// Asks the server of this name for its status, and waits for the answer as long as `patience` says, which is not zero.
pub(crate) fn ask_server<R: Net + Clock + Wait>(
    rt: &R,
    alloc: Global,
    run_folder: &str,
    name: &str,
    patience: Duration,
) -> Result<Told, NoAnswer> {
    let path = format!(in alloc; "{run_folder}/{name}/status")?;
    let stream = match UnixStream::connect(rt, path.as_str()) {
        Ok(stream) => stream,
        Err(error) => return Err(NoAnswer::Unreached(error)),
    };
    let mut came = Vec::new(alloc);
    match exchange(rt, &stream, patience, &mut came) {
        Ok(true) => {}
        Ok(false) => return Err(NoAnswer::Strange),
        Err(error) => return Err(NoAnswer::Unread(error)),
    }
    match read_answer(came.as_slice()) {
        PageAnswer::Text(text) => match Told::read(alloc, text)? {
            Some(told) => Ok(told),
            None => Err(NoAnswer::Strange),
        },
        PageAnswer::Unavailable => Err(NoAnswer::Unavailable),
        PageAnswer::Strange => Err(NoAnswer::Strange),
    }
}

// Asks for the page, and takes all that comes until the server closes the connection. Returns whether that is short enough.
fn exchange<R: Clock + Wait>(
    rt: &R,
    stream: &UnixStream,
    patience: Duration,
    came: &mut Vec<u8>,
) -> io::Result<bool> {
    let start = Instant::now(rt)?;
    let mut stream = stream;
    stream.set_write_timeout(Some(patience))?;
    // It is shorter than what any socket takes at once.
    if stream.write(QUESTION)? != QUESTION.len() {
        return Err(io::Error::from(ErrorKind::WriteZero));
    }
    let mut buffer = [0u8; BUFFER_BYTES];
    for _ in rt.forever() {
        let left = patience.saturating_sub(start.elapsed(rt)?);
        if left.is_zero() {
            return Err(io::Error::from(ErrorKind::TimedOut));
        }
        stream.set_read_timeout(Some(left))?;
        let count = stream.read(&mut buffer)?;
        if count == 0 {
            return Ok(true);
        }
        if came.len().saturating_add(count) > MOST_BYTES {
            return Ok(false);
        }
        came.extend_from_slice(&buffer[..count])?;
    }
    unreachable!()
}
