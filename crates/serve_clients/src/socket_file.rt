//! The files of Unix sockets at which a server listens.
use crate::lists::append;
use client_socket::ListenFault;
use std::alloc::Global;
use std::fs::Permissions;
use std::io::ErrorKind;
use std::net::Net;
use std::os::unix::fs::{FileTypeExt, MetadataExt, PermissionsExt};
use std::os::unix::net::{UnixListener, UnixStream};
use std::rt::Files;
use std::{fs, io};

/// The mode of the file of a socket: its owner and group may connect.
const MODE: u32 = 0o660;

/// The file of a socket at which this server listens.
#[derive(Drop)]
struct SocketFile {
    path: String,
    identity: Identity,
}

/// What tells a file from one that took its place: a number of a file is used again, and so its time of change is kept, too.
#[derive(Clone, Copy, PartialEq, Eq)]
struct Identity {
    device: u64,
    inode: u64,
    changed_s: i64,
    changed_ns: i64,
}

impl Identity {
    fn of(metadata: &fs::Metadata) -> Identity {
        Identity {
            device: metadata.dev(),
            inode: metadata.ino(),
            changed_s: metadata.ctime(),
            changed_ns: metadata.ctime_nsec(),
        }
    }
}

/// The files of the Unix sockets at which a server listens. They stay when the sockets are closed.
#[derive(Drop)]
pub struct SocketFiles {
    files: Vec<SocketFile>,
}

impl SocketFiles {
    /// Creates a list of none.
    pub(crate) fn none(alloc: Global) -> SocketFiles {
        SocketFiles {
            files: Vec::new(alloc),
        }
    }

    /// Listens at this path, and keeps its file in mind. What a dead server left there is removed before.
    pub(crate) fn listen<R: Files + Net + AllocGlobal>(
        &mut self,
        rt: &R,
        path: &str,
    ) -> Result<UnixListener, ListenFault> {
        make_room(rt, path)?;
        match bind(rt, path) {
            Ok((socket, metadata)) => {
                let file = SocketFile {
                    path: String::from_str(rt.alloc(), path)?,
                    identity: Identity::of(&metadata),
                };
                append(&mut self.files, file)?;
                Ok(socket)
            }
            Err(error) => Err(ListenFault::at_path(rt.alloc(), path, error)),
        }
    }

    /// Removes the files that are still those of this server.
    pub fn remove<R: Files>(&self, rt: &R) {
        for file in self.files.iter() {
            remove_if_same(rt, file.path.as_str(), file.identity);
        }
    }
}

// Removes the file at a path, unless another one has taken its place. Nothing is done where that fails: listening tells of it.
fn remove_if_same<R: Files>(rt: &R, path: &str, identity: Identity) {
    let is_same = match fs::symlink_metadata(rt, path) {
        Ok(found) => Identity::of(&found) == identity,
        Err(_) => false,
    };
    if is_same {
        let _ = fs::remove_file(rt, path);
    }
}

// Listens at a path at which nothing is. Returns the socket, and what the system says of its file.
fn bind<R: Files + Net>(rt: &R, path: &str) -> io::Result<(UnixListener, fs::Metadata)> {
    let socket = UnixListener::bind(rt, path)?;
    match open_to_group(rt, path) {
        Ok(metadata) => Ok((socket, metadata)),
        Err(error) => {
            let _ = fs::remove_file(rt, path);
            Err(error)
        }
    }
}

// Lets the owner and the group of a socket's file connect. Returns what the system says of the file.
fn open_to_group<R: Files>(rt: &R, path: &str) -> io::Result<fs::Metadata> {
    fs::set_permissions(rt, path, Permissions::from_mode(MODE))?;
    fs::symlink_metadata(rt, path)
}

// Removes the socket of a server that is gone. `InUse` if a server answers there, `NoSocket` if something else is there.
fn make_room<R: Files + Net + AllocGlobal>(rt: &R, path: &str) -> Result<(), ListenFault> {
    match fs::symlink_metadata(rt, path) {
        Ok(found) if !found.file_type().is_socket() => {
            Err(ListenFault::NoSocket(String::from_str(rt.alloc(), path)?))
        }
        Ok(found) => remove_dead(rt, path, Identity::of(&found)),
        // Listening tells of any other error.
        Err(_) => Ok(()),
    }
}

// Removes a socket if no server answers there, and if no other server has taken its place meanwhile.
fn remove_dead<R: Files + Net + AllocGlobal>(
    rt: &R,
    path: &str,
    identity: Identity,
) -> Result<(), ListenFault> {
    match UnixStream::connect(rt, path) {
        Ok(_) => Err(ListenFault::InUse(String::from_str(rt.alloc(), path)?)),
        Err(error) if error.kind() == ErrorKind::ConnectionRefused => {
            remove_if_same(rt, path, identity);
            Ok(())
        }
        Err(error) => Err(ListenFault::at_path(rt.alloc(), path, error)),
    }
}
