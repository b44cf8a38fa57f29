//! A socket that a service manager has opened and passed, as sd_listen_fds(3) has it.
use crate::listener::{Listener, Socket};
use client_socket::Address;
use os::FromRawFd;
use std::env::Env;
use std::net::TcpListener;
use std::os::fd::OwnedFd;
use std::os::unix::net::UnixListener;
use std::rt::Files;
use std::{env, fs, io};

/// Returns the socket that was passed to this process, or `None` if none was: the variables of the environment say it of another process, or
/// not at all. An error if it is no socket that has an address, or if more than one was passed.
pub(crate) fn passed_socket<R: Env + Files + AllocGlobal>(rt: &R) -> io::Result<Option<Listener>> {
    if !is_meant(rt)? {
        return Ok(None);
    }
    match env::var(rt, "LISTEN_FDS") {
        Ok(count) if count.as_str() == "1" => {}
        _ => return Err(io::Error::from(io::ErrorKind::InvalidInput)),
    }
    // Descriptor 3 is open from the start, and nothing else of this process has it: the variables say so, and they are read once.
    let socket = unsafe { TcpListener::from_raw_fd(3) };
    match socket.local_addr() {
        Ok(address) => Ok(Some(Listener {
            socket: Socket::Tcp(socket),
            address: Address::Ip(address),
        })),
        // It is of another family.
        Err(_) => unix_listener(rt, UnixListener::from(OwnedFd::from(socket))),
    }
}

// Returns whether the variables of the environment are meant for this process, whose number is what its link in /proc names.
fn is_meant<R: Env + Files + AllocGlobal>(rt: &R) -> io::Result<bool> {
    match env::var(rt, "LISTEN_PID") {
        Ok(process) => Ok(fs::read_link(rt, "/proc/self")?.as_str() == process.as_str()),
        Err(_) => Ok(false),
    }
}

// Returns a passed Unix socket, whose file is the service manager's.
fn unix_listener<R: AllocGlobal>(rt: &R, socket: UnixListener) -> io::Result<Option<Listener>> {
    let address = socket.local_addr()?;
    let Some(path) = address.as_pathname() else {
        return Err(io::Error::from(io::ErrorKind::InvalidInput));
    };
    let path = String::from_str(rt.alloc(), path.as_str())?;
    Ok(Some(Listener {
        socket: Socket::Unix(socket),
        address: Address::Unix(path),
    }))
}
