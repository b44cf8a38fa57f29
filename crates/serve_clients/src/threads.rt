//! The start of a server's threads.
use crate::accept::accept_clients;
use crate::conversations::run_errands;
use crate::listener::Listener;
use crate::listeners::Listeners;
use crate::lists::append;
use crate::page::serve_page;
use crate::quit::wait_for_quit;
use crate::service::Service;
use client_socket::Address;
use session_api::Runtime;
use std::alloc::{AllocError, Global};
use std::hash::RandomState;
use std::io::Read;
use std::net::{Net, TcpListener, TcpStream};
use std::random::RandomSource;
use std::sync::Arc;
use std::{fmt, io, thread};

/// Why the threads of a server could not be started.
#[derive(Drop)]
pub enum StartFault {
    /// There were no random bytes for the secret keys of the status page.
    NoKeys(io::Error),
    /// The system gave no thread.
    Unthreaded,
    /// There was no memory.
    NoMemory,
}

impl fmt::Display for StartFault {
    fn fmt<W: fmt::Write>(&self, f: &mut fmt::Formatter<W>) -> fmt::Result {
        match self {
            StartFault::NoKeys(error) => write!(f, "the system gives no random bytes: {error}"),
            StartFault::Unthreaded => f.write_str("a thread could not be started"),
            StartFault::NoMemory => f.write_str("there was no memory for a thread"),
        }
    }
}

impl From<AllocError> for StartFault {
    fn from(_: AllocError) -> StartFault {
        StartFault::NoMemory
    }
}

/// Starts the threads of a server that outlast its sessions: those that let clients in and those that answer clients of the status
/// page, one for each address, the one that has replies written which clients take slowly, and the one that waits for the order to end. If
/// one cannot be started, those that were started go on.
pub fn start_threads<
    H: Runtime + Net<Listener = TcpListener, Stream = TcpStream> + RandomSource,
    I: Read + Drop + Send + 'static,
>(
    rt: &H,
    service: &Arc<Service, Global>,
    listeners: Listeners,
    input: I,
) -> Result<(), StartFault> {
    let rt = *rt;
    let Listeners { clients, pages } = listeners;
    let mut addresses = Vec::new(service.alloc);
    if !pages.is_empty() {
        let keys = match RandomState::new(&rt) {
            Ok(keys) => keys,
            Err(error) => return Err(StartFault::NoKeys(error)),
        };
        for page in pages {
            append(&mut addresses, start_page(rt, service, keys, page)?)?;
        }
    }
    let serving = Arc::try_clone(service)?;
    if thread::spawn(&rt, move || run_errands(rt, &serving)).is_err() {
        return Err(StartFault::Unthreaded);
    }
    for listener in clients {
        append(&mut addresses, start_letting(rt, service, listener)?)?;
    }
    let waiting = Arc::try_clone(service)?;
    let started = thread::spawn(&rt, move || {
        wait_for_quit(&rt, &waiting, input, addresses.as_slice());
    });
    if started.is_err() {
        return Err(StartFault::Unthreaded);
    }
    Ok(())
}

// Starts the thread that lets block clients in at an address, which this returns.
fn start_letting<H: Runtime>(
    rt: H,
    service: &Arc<Service, Global>,
    listener: Listener,
) -> Result<Address, StartFault> {
    let Listener { socket, address } = listener;
    let service = Arc::try_clone(service)?;
    if thread::spawn(&rt, move || accept_clients(&rt, &service, &socket)).is_err() {
        return Err(StartFault::Unthreaded);
    }
    Ok(address)
}

// Starts the thread of the status page at an address, which this returns.
fn start_page<H: Runtime>(
    rt: H,
    service: &Arc<Service, Global>,
    keys: RandomState,
    listener: Listener,
) -> Result<Address, StartFault> {
    let Listener { socket, address } = listener;
    let service = Arc::try_clone(service)?;
    if thread::spawn(&rt, move || serve_page(rt, &service, keys, &socket)).is_err() {
        return Err(StartFault::Unthreaded);
    }
    Ok(address)
}
