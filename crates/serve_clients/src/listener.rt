//! A socket that listens.
use crate::socket_file::SocketFiles;
use client_socket::{Address, ClientStream, ListenFault};
use program_values::ListenAt;
use std::alloc::{AllocError, Global};
use std::net::{Net, SocketAddr, TcpListener, TcpStream};
use std::os::unix::net::UnixListener;
use std::rt::Files;
use std::{fmt, io};

/// A socket that listens, at an IP address or at a path.
#[derive(Drop)]
pub(crate) enum Socket {
    Tcp(TcpListener),
    Unix(UnixListener),
}

impl Socket {
    /// Waits for a client, and returns its socket.
    pub(crate) fn accept(&self) -> io::Result<ClientStream> {
        match self {
            Socket::Tcp(socket) => Ok(ClientStream::from(socket.accept()?.0)),
            Socket::Unix(socket) => Ok(ClientStream::from(socket.accept()?.0)),
        }
    }
}

/// A socket that listens, and its address.
#[derive(Drop)]
pub(crate) struct Listener {
    pub(crate) socket: Socket,
    pub(crate) address: Address,
}

impl Listener {
    /// Listens at this place. The file of a Unix socket is added to `files`.
    pub(crate) fn open<H: Files + Net<Listener = TcpListener, Stream = TcpStream> + AllocGlobal>(
        rt: &H,
        place: ListenAt<'_>,
        files: &mut SocketFiles,
    ) -> Result<Listener, ListenFault> {
        match place {
            ListenAt::Ip(address) => match bound(rt, address) {
                Ok((socket, address)) => Ok(Listener {
                    socket: Socket::Tcp(socket),
                    address: Address::Ip(address),
                }),
                Err(error) => Err(ListenFault::Unbound(Address::Ip(address), error)),
            },
            ListenAt::Unix(path) => {
                let address = Address::Unix(String::from_str(rt.alloc(), path)?);
                let socket = Socket::Unix(files.listen(rt, path)?);
                Ok(Listener { socket, address })
            }
        }
    }
}

// Returns a socket that listens at this address, and the address that it has.
fn bound<H: Net<Listener = TcpListener, Stream = TcpStream>>(
    rt: &H,
    address: SocketAddr,
) -> io::Result<(TcpListener, SocketAddr)> {
    let socket = TcpListener::bind(rt, address)?;
    let address = socket.local_addr()?;
    Ok((socket, address))
}
