//! Test of a client whose requests are under way when the server ends.
use crate::clients::{ZERO_BLOCK, ask, free_addresses, options_of, put_image, reply, serve_until};
use crate::slow_reader::{BLOCKS, READS, ask_for_all, open};
use blocks::Protocol;
use serving::{Host, ServeOptions};
use std::alloc::Global;
use std::env::Env;
use std::fs::File;
use std::io::{Read, Write};
use std::net::{Net, SocketAddr, TcpListener, TcpStream};
use std::process::Abort;
use std::random::RandomSource;
use std::rt::Files;
use std::sync::Arc;
use std::sync::atomic::{AtomicBool, Ordering};
use std::time::{Clock, Duration};
use std::{fs, thread};

/// ESHUTDOWN, the error of a request that the server has read and does not do any more.
const SHUTDOWN: u8 = 108;

/// How often a client looks whether the server ends.
const LOOKS: u32 = 5000;

/// How long it waits for a greeting at most, in seconds.
const LIMIT_S: u64 = 60;

/// The replies that the client takes in a millisecond at most.
const TAKEN_IN_A_MS: usize = 8;

// Waits until the server ends: it greets no further client.
fn wait_for_end<R: Abort + Net<Stream = TcpStream> + Clock>(rt: &R, address: SocketAddr) {
    for _ in 0..LOOKS {
        let Ok(mut stream) = TcpStream::connect(rt, address) else {
            return;
        };
        let limit = Some(Duration::from_secs(LIMIT_S));
        stream.set_read_timeout(limit).expect(rt, "a limit");
        let mut greeting = [0u8; 18];
        if stream.read_exact(&mut greeting).is_err() {
            return;
        }
        thread::sleep(rt, Duration::from_millis(5));
    }
    assert!(rt; false, "the server does not end");
}

// Reads a reply, and counts it for its cookie. Returns whether its request was done.
fn take_one(rt: &impl Abort, stream: &mut TcpStream, seen: &mut [usize; 256]) -> bool {
    let mut header = [0u8; 16];
    stream.read_exact(&mut header).expect(rt, "a header");
    let cookie = header[15];
    if let Some(count) = seen.get_mut(usize::from(cookie)) {
        *count = count.saturating_add(1);
    }
    if header == reply(SHUTDOWN, cookie) {
        return false;
    }
    assert_eq!(rt; header, reply(0, cookie), "a header");
    let mut block = [0u8; 4096];
    for number in 0..BLOCKS {
        stream.read_exact(&mut block).expect(rt, "a block");
        assert!(rt; block == ZERO_BLOCK, "block {number}");
    }
    true
}

// Asks for more than the sockets take, lets the server end, and then reads slowly: each request is answered, the last
// ones with an error, and then the connection ends, although the server has not read the last request.
fn see_the_end<R: Abort + Net<Stream = TcpStream> + Clock>(
    rt: &R,
    alloc: Global,
    address: SocketAddr,
    is_done: &AtomicBool,
) {
    let mut stream = open(rt, alloc, address);
    ask_for_all(rt, alloc, &mut stream);
    let mut seen = [0usize; 256];
    assert!(rt; take_one(rt, &mut stream, &mut seen), "the first reply");
    is_done.store(true, Ordering::SeqCst);
    wait_for_end(rt, address);
    stream
        .write_all(&ask(0, 0, [0, 0], [0x10, 0]))
        .expect(rt, "a request");
    let mut done = 1usize;
    for number in 1..READS {
        if take_one(rt, &mut stream, &mut seen) {
            done = done.saturating_add(1);
        }
        if number % TAKEN_IN_A_MS == 0 {
            thread::sleep(rt, Duration::from_millis(1));
        }
    }
    assert_eq!(rt; seen, [READS / 256; 256], "replies");
    assert!(rt; done < READS, "no request is refused");
    let more = stream.read(&mut [0u8; 1]).expect(rt, "the end");
    assert_eq!(rt; more, 0, "the end");
}

// Serves two images to the client. Returns the server's status.
fn serve_to_the_end<
    H: Abort
        + Host
        + Files<File = File>
        + Net<Listener = TcpListener, Stream = TcpStream>
        + RandomSource
        + Env,
>(rt: H) -> u8 {
    let alloc = rt.alloc();
    let (address, page) = free_addresses(&rt);
    let is_done = Arc::new(alloc, AtomicBool::new(false)).expect(&rt, "memory");
    let options = ServeOptions {
        local: "ending_local",
        peer: "ending_peer",
        ..options_of(&rt, Protocol::C, address, page)
    };
    let mut out = Vec::new(alloc);
    let (_, status) = thread::join(
        &rt,
        || see_the_end(&rt, alloc, address, &is_done),
        || -> u8 { serve_until(rt, &options, &is_done, &mut out) },
    );
    status
}

#[test]
fn each_request_is_answered_when_the_server_ends(rt: HostRuntime) {
    for file in ["ending_local", "ending_peer"] {
        put_image(&rt, file);
    }
    assert_eq!(rt; serve_to_the_end(rt), 0);
    for file in ["ending_local", "ending_peer"] {
        fs::remove_file(&rt, file).expect(&rt, "an image");
    }
}
