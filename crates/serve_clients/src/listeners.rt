//! All addresses that a server listens at.
use crate::listener::Listener;
use crate::lists::append;
use crate::passed::passed_socket;
use crate::socket_file::SocketFiles;
use client_socket::{Address, ListenFault};
use program_values::{ListenAt, ServerName};
use std::alloc::{AllocError, Global};
use std::env::Env;
use std::fs;
use std::net::{Net, TcpListener, TcpStream};
use std::rt::Files;

/// The listeners for block clients, and those of the status page.
#[derive(Drop)]
pub struct Listeners {
    pub(crate) clients: Vec<Listener>,
    pub(crate) pages: Vec<Listener>,
}

impl Listeners {
    /// Listens at these places for block clients and for clients of the status page, and for the latter also at the socket
    /// `status` in the folder of a server that has a name: the folder is made if it is not there. Also returns the files of
    /// the Unix sockets, which are to be removed at the end. What a dead server left at their paths is removed before. A socket that a service
    /// manager passed takes the place of all those for block clients.
    ///
    /// `InUse` if a server answers at a path, `NoSocket` if something else is there, `NoFolder` if there is no folder and none
    /// can be made, `Unpassed` if a passed socket cannot be used, and `Unbound` for any other fault of an address. Then nothing listens, and no
    /// socket is left.
    pub fn open<H: Files + Net<Listener = TcpListener, Stream = TcpStream> + Env + AllocGlobal>(
        rt: &H,
        clients: &[ListenAt<'_>],
        pages: &[ListenAt<'_>],
        name: Option<ServerName<'_>>,
    ) -> Result<(Listeners, SocketFiles), ListenFault> {
        let mut files = SocketFiles::none(rt.alloc());
        match open_all(rt, clients, pages, name, &mut files) {
            Ok(listeners) => Ok((listeners, files)),
            Err(fault) => {
                files.remove(rt);
                Err(fault)
            }
        }
    }

    /// Returns a line for each address, for a device of this many blocks.
    pub fn lines(&self, alloc: Global, blocks: u32) -> Result<String, AllocError> {
        let mut lines = String::new(alloc);
        for listener in self.clients.iter() {
            let address = &listener.address;
            let line = format!(in alloc; "{address} is an export of {blocks} blocks\n")?;
            lines.push_str(line.as_str())?;
        }
        for listener in self.pages.iter() {
            let line = match &listener.address {
                Address::Ip(address) => format!(in alloc; "http://{address}/ tells its status\n")?,
                Address::Unix(path) => format!(in alloc; "unix:{path} tells its status\n")?,
            };
            lines.push_str(line.as_str())?;
        }
        Ok(lines)
    }
}

// Listens at all places. The files of Unix sockets are added to `files`.
fn open_all<H: Files + Net<Listener = TcpListener, Stream = TcpStream> + Env + AllocGlobal>(
    rt: &H,
    clients: &[ListenAt<'_>],
    pages: &[ListenAt<'_>],
    name: Option<ServerName<'_>>,
    files: &mut SocketFiles,
) -> Result<Listeners, ListenFault> {
    let clients = match passed_socket(rt) {
        Ok(None) => open_each(rt, clients, files)?,
        Ok(Some(passed)) => {
            let mut listeners = Vec::new(rt.alloc());
            append(&mut listeners, passed)?;
            listeners
        }
        Err(error) => return Err(ListenFault::Unpassed(error)),
    };
    let mut pages = open_each(rt, pages, files)?;
    if let Some(name) = name {
        append(&mut pages, open_named(rt, name, files)?)?;
    }
    Ok(Listeners { clients, pages })
}

// Listens at these places.
fn open_each<H: Files + Net<Listener = TcpListener, Stream = TcpStream> + AllocGlobal>(
    rt: &H,
    places: &[ListenAt<'_>],
    files: &mut SocketFiles,
) -> Result<Vec<Listener>, ListenFault> {
    let mut listeners = Vec::new(rt.alloc());
    for place in places {
        append(&mut listeners, Listener::open(rt, *place, files)?)?;
    }
    Ok(listeners)
}

// Listens at the status socket of a server that has a name.
fn open_named<H: Files + Net<Listener = TcpListener, Stream = TcpStream> + AllocGlobal>(
    rt: &H,
    server: ServerName<'_>,
    files: &mut SocketFiles,
) -> Result<Listener, ListenFault> {
    let ServerName { name, run_folder } = server;
    let folder = format!(in rt.alloc(); "{run_folder}/{name}")?;
    if let Err(error) = fs::create_dir_all(rt, folder.as_str()) {
        return Err(ListenFault::NoFolder(folder, error));
    }
    let path = format!(in rt.alloc(); "{folder}/status")?;
    Listener::open(rt, ListenAt::Unix(path.as_str()), files)
}
