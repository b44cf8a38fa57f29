//! Why a server cannot listen.
use crate::Address;
use std::alloc::{AllocError, Global};
use std::{fmt, io};

/// Why a server cannot listen.
#[derive(Drop)]
pub enum ListenFault {
    /// Nothing can listen at the address.
    Unbound(Address, io::Error),
    /// A server answers at the socket of this path.
    InUse(String),
    /// What is at this path is no socket.
    NoSocket(String),
    /// This folder, for the status socket of a named server, is not there and could not be made.
    NoFolder(String, io::Error),
    /// A socket that a service manager passed cannot be used.
    Unpassed(io::Error),
    /// There was no memory.
    NoMemory,
}

impl ListenFault {
    /// Returns the fault of a Unix socket at which nothing can listen.
    pub fn at_path(alloc: Global, path: &str, error: io::Error) -> ListenFault {
        match String::from_str(alloc, path) {
            Ok(path) => ListenFault::Unbound(Address::Unix(path), error),
            Err(_) => ListenFault::NoMemory,
        }
    }
}

impl From<AllocError> for ListenFault {
    fn from(_: AllocError) -> ListenFault {
        ListenFault::NoMemory
    }
}

impl fmt::Display for ListenFault {
    fn fmt<W: fmt::Write>(&self, f: &mut fmt::Formatter<W>) -> fmt::Result {
        match self {
            ListenFault::Unbound(address, error) => {
                write!(f, "cannot listen at {address}: {error}")
            }
            ListenFault::InUse(path) => write!(f, "{path} is in use: a server answers there"),
            ListenFault::NoSocket(path) => write!(f, "{path} is not a socket"),
            ListenFault::NoFolder(folder, error) => write!(
                f,
                "{folder}, for the status socket, could not be made: {error}; make it for the user of the server, or name another place by --run-dir"
            ),
            ListenFault::Unpassed(error) => write!(
                f,
                "the socket that the service manager passed (LISTEN_FDS) cannot be used: {error}; one is taken, of TCP or with a path"
            ),
            ListenFault::NoMemory => f.write_str("there was no memory to listen"),
        }
    }
}
