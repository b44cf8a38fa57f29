//! Sockets of this machine.
use session_threads::{Way, Ways};
use std::io;
use std::io::ErrorKind;
use std::net::{Ipv4Addr, Net, TcpListener, TcpStream};

/// The most connections of others that the listener passes over for the one that it waits for.
const MAX_STRANGERS: u32 = 256;

/// A direction of a link: a socket's two ends.
pub type Socket = Way<TcpStream, TcpStream>;

/// Connects both directions of a link over 127.0.0.1, each over a socket of its own that sends without delay. Returns
/// the system's error if a socket cannot be made; then none stays open.
pub fn loopback<R: Net<Listener = TcpListener, Stream = TcpStream>>(
    rt: &R,
) -> io::Result<Ways<Socket, Socket>> {
    let listener = TcpListener::bind(rt, (Ipv4Addr::LOCALHOST, 0))?;
    let to_secondary = way(rt, &listener)?;
    let to_primary = way(rt, &listener)?;
    Ok(Ways {
        to_secondary,
        to_primary,
    })
}

// Connects one direction: the connecting end is written, and the end that the listener accepts is read.
fn way<R: Net<Listener = TcpListener, Stream = TcpStream>>(
    rt: &R,
    listener: &TcpListener,
) -> io::Result<Socket> {
    let writer = TcpStream::connect(rt, listener.local_addr()?)?;
    writer.set_nodelay(true)?;
    let own = writer.local_addr()?;
    for _ in 0..MAX_STRANGERS {
        let (reader, from) = listener.accept()?;
        if from == own {
            return Ok(Way { writer, reader });
        }
    }
    Err(io::Error::from(ErrorKind::ConnectionRefused))
}
