//! An address at which a server listens.
use std::fmt;
use std::net::{Net, SocketAddr, TcpStream};
use std::os::unix::net::UnixStream;

/// An address at which a server listens.
#[derive(Drop)]
pub enum Address {
    /// An IP address and a port.
    Ip(SocketAddr),
    /// The path of a Unix socket.
    Unix(String),
}

impl Address {
    /// Connects, and leaves again: the thread that lets clients in here then looks whether the server ends.
    pub fn visit<R: Net<Stream = TcpStream>>(&self, rt: &R) {
        match self {
            Address::Ip(address) => {
                let _ = TcpStream::connect(rt, *address);
            }
            Address::Unix(path) => {
                let _ = UnixStream::connect(rt, path.as_str());
            }
        }
    }
}

impl fmt::Display for Address {
    fn fmt<W: fmt::Write>(&self, f: &mut fmt::Formatter<W>) -> fmt::Result {
        match self {
            Address::Ip(address) => write!(f, "{address}"),
            Address::Unix(path) => write!(f, "unix:{path}"),
        }
    }
}
