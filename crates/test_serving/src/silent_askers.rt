//! Test of a client of the status page beside others that say nothing.
use crate::clients::{connect, free_addresses, is_answered, options_of, put_image, serve_until};
use blocks::Protocol;
use serving::{Host, ServeOptions};
use std::alloc::Global;
use std::env::Env;
use std::fs::File;
use std::net::{Net, SocketAddr, TcpListener, TcpStream};
use std::process::Abort;
use std::random::RandomSource;
use std::rt::Files;
use std::sync::Arc;
use std::sync::atomic::{AtomicBool, Ordering};
use std::time::{Clock, Duration, Instant};
use std::{fs, io, thread};

/// Clients that connect and say nothing.
const SILENT: usize = 20;

/// The time within which the other one has its answer: less than a silent client keeps its place, which is two seconds.
const PATIENCE_MS: u64 = 1500;

/// How often a client looks for connected nodes at most.
const LOOKS: u32 = 200;

/// How often the other one tries at most: the machine may be slow for a moment, but a server that keeps it waiting does so each time.
const TRIES: u32 = 5;

// Asks until both nodes are connected, a moment after the server listens. Returns whether they are.
fn is_soon_connected<R: Clock + Net<Stream = TcpStream>>(
    rt: &R,
    alloc: Global,
    page: SocketAddr,
) -> io::Result<bool> {
    for _ in 0..LOOKS {
        let mut stream = connect(rt, page)?;
        if is_answered(alloc, &mut stream)? {
            return Ok(true);
        }
        thread::sleep(rt, Duration::from_millis(5));
    }
    Ok(false)
}

// Has a client ask behind silent ones, until it has its answer in time. Returns whether it has.
fn is_soon_answered<R: Abort + Clock + Net<Stream = TcpStream>>(
    rt: &R,
    alloc: Global,
    page: SocketAddr,
) -> io::Result<bool> {
    if !is_soon_connected(rt, alloc, page)? {
        return Ok(false);
    }
    for _ in 0..TRIES {
        if matches!(ask_behind(rt, alloc, page), Ok(true)) {
            return Ok(true);
        }
    }
    Ok(false)
}

// Has silent clients, and one behind them that asks. Returns whether its answer is right, and in time.
fn ask_behind<R: Abort + Clock + Net<Stream = TcpStream>>(
    rt: &R,
    alloc: Global,
    page: SocketAddr,
) -> io::Result<bool> {
    let mut silent = Vec::new(alloc);
    for _ in 0..SILENT {
        silent.push(connect(rt, page)?).ok().expect(rt, "memory");
    }
    let start = Instant::now(rt)?;
    let mut asker = connect(rt, page)?;
    let is_right = is_answered(alloc, &mut asker)?;
    Ok(is_right && start.elapsed(rt)? < Duration::from_millis(PATIENCE_MS))
}

// Serves two images and their page. Returns the server's status, and whether the client that asks has its answer in time.
fn serve_page_to_many<
    H: Abort
        + Host
        + Files<File = File>
        + Net<Listener = TcpListener, Stream = TcpStream>
        + RandomSource
        + Env,
>(rt: H) -> (u8, bool) {
    let alloc = rt.alloc();
    let (address, page) = free_addresses(&rt);
    let is_done = Arc::new(alloc, AtomicBool::new(false)).expect(&rt, "memory");
    let options = ServeOptions {
        local: "silent_local",
        peer: "silent_peer",
        ..options_of(&rt, Protocol::C, address, page)
    };
    let mut out = Vec::new(alloc);
    let (answer, status) = thread::join(
        &rt,
        || -> io::Result<bool> {
            let answer = is_soon_answered(&rt, alloc, page);
            is_done.store(true, Ordering::SeqCst);
            answer
        },
        || -> u8 { serve_until(rt, &options, &is_done, &mut out) },
    );
    (status, answer.expect(&rt, "an answer"))
}

#[test]
fn a_client_of_the_page_waits_for_no_silent_ones(rt: HostRuntime) {
    for file in ["silent_local", "silent_peer"] {
        put_image(&rt, file);
    }
    assert_eq!(rt; serve_page_to_many(rt), (0, true));
    for file in ["silent_local", "silent_peer"] {
        fs::remove_file(&rt, file).expect(&rt, "an image");
    }
}
