//! Why the program stops before its last script.
use program_values::Status;
use std::{fmt, io};

/// Why the program stops.
#[derive(Drop)]
pub(crate) enum Stop {
    /// The names cannot be read.
    Unread(io::Error),
    /// The names are not UTF-8.
    NotUtf8,
    /// There is no name.
    NoNames,
    /// The output cannot be written.
    Unwritten(io::Error),
}

impl Stop {
    pub(crate) fn status(&self) -> Status {
        match self {
            Stop::Unread(_) | Stop::Unwritten(_) => Status::Failed,
            Stop::NotUtf8 | Stop::NoNames => Status::Misused,
        }
    }
}

impl fmt::Display for Stop {
    fn fmt<W: fmt::Write>(&self, f: &mut fmt::Formatter<W>) -> fmt::Result {
        match self {
            Stop::Unread(error) => write!(f, "the names could not be read: {error}"),
            Stop::NotUtf8 => write!(f, "the names are not UTF-8"),
            Stop::NoNames => write!(f, "standard input names no script"),
            Stop::Unwritten(error) => write!(f, "the output could not be written: {error}"),
        }
    }
}
