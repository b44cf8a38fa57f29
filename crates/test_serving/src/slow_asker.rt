//! Test of a client of the status page that asks a byte at a time while another one asks at once.
use crate::clients::{PAGE, connect, free_addresses, options_of, put_image, serve_until};
use blocks::Protocol;
use serving::{Host, ServeOptions};
use std::alloc::Global;
use std::env::Env;
use std::fs::File;
use std::io::{Read, Write};
use std::net::{Net, SocketAddr, TcpListener, TcpStream};
use std::process::Abort;
use std::random::RandomSource;
use std::rt::Files;
use std::sync::Arc;
use std::sync::atomic::{AtomicBool, Ordering};
use std::time::{Clock, Duration};
use std::{fs, io, thread};

/// Bytes that the slow client sends, one in 50 milliseconds: for ten seconds, unless the other one is answered before.
const BYTES: u32 = 200;

// Sends a byte at a time until the other client is answered. Returns whether that comes before the last byte.
fn ask_slowly<R: Clock>(rt: &R, stream: &mut TcpStream, is_answered: &AtomicBool) -> bool {
    for _ in 0..BYTES {
        if is_answered.load(Ordering::SeqCst) {
            return true;
        }
        // The server closes the connection once the client was too slow.
        let _ = stream.write_all(b"a");
        thread::sleep(rt, Duration::from_millis(50));
    }
    false
}

// Asks for the page. Returns whether an answer comes.
fn gets_answer(alloc: Global, stream: &mut TcpStream) -> io::Result<bool> {
    stream.write_all(PAGE)?;
    let mut came = Vec::new(alloc);
    stream.read_to_end(&mut came)?;
    Ok(came.as_slice().starts_with(b"HTTP/1.1 "))
}

// Has a client that asks slowly, and another one behind it. Returns whether that one is answered in time.
fn ask_beside<R: Abort + Host + Net<Stream = TcpStream>>(
    rt: &R,
    alloc: Global,
    page: SocketAddr,
) -> bool {
    let mut slow = connect(rt, page).expect(rt, "a connection");
    slow.write_all(b"GET / HTTP/1.1\r\nX-Slow: ")
        .expect(rt, "a request");
    let mut beside = connect(rt, page).expect(rt, "a connection");
    let is_answered = AtomicBool::new(false);
    let (is_in_time, answer) = thread::join(
        rt,
        || -> bool { ask_slowly(rt, &mut slow, &is_answered) },
        || -> io::Result<bool> {
            let answer = gets_answer(alloc, &mut beside);
            is_answered.store(true, Ordering::SeqCst);
            answer
        },
    );
    is_in_time && answer.expect(rt, "an answer")
}

// Serves two images and their page to both clients. Returns the server's status, and whether the second client is answered
// in time.
fn serve_page_to_both<
    H: Abort
        + Host
        + Files<File = File>
        + Net<Listener = TcpListener, Stream = TcpStream>
        + RandomSource
        + Env,
>(rt: H) -> (u8, bool) {
    let alloc = rt.alloc();
    let (address, page) = free_addresses(&rt);
    let is_done = Arc::new(alloc, AtomicBool::new(false)).expect(&rt, "memory");
    let options = ServeOptions {
        local: "asked_local",
        peer: "asked_peer",
        ..options_of(&rt, Protocol::C, address, page)
    };
    let mut out = Vec::new(alloc);
    let (is_in_time, status) = thread::join(
        &rt,
        || -> bool {
            let is_in_time = ask_beside(&rt, alloc, page);
            is_done.store(true, Ordering::SeqCst);
            is_in_time
        },
        || -> u8 { serve_until(rt, &options, &is_done, &mut out) },
    );
    (status, is_in_time)
}

#[test]
fn a_client_of_the_page_waits_for_no_slow_one(rt: HostRuntime) {
    for file in ["asked_local", "asked_peer"] {
        put_image(&rt, file);
    }
    assert_eq!(rt; serve_page_to_both(rt), (0, true));
    for file in ["asked_local", "asked_peer"] {
        fs::remove_file(&rt, file).expect(&rt, "an image");
    }
}
