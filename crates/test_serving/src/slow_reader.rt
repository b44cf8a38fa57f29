//! Test of a client that reads no replies while another one is served.
use crate::clients::{
    AB_BLOCK, FLAGS, GO, GO_ANSWER, GREETING, ZERO_BLOCK, ask, connect, exchange, free_addresses,
    options_of, reply, serve_until,
};
use blocks::Protocol;
use serving::{Host, ServeOptions};
use std::alloc::Global;
use std::env::Env;
use std::fs::File;
use std::io::{Read, Write};
use std::net::{Net, SocketAddr, TcpListener, TcpStream};
use std::process::Abort;
use std::random::RandomSource;
use std::rt::Files;
use std::sync::Arc;
use std::sync::atomic::{AtomicBool, Ordering};
use std::time::{Clock, Duration};
use std::{fs, thread};

/// Blocks of the images.
pub(crate) const BLOCKS: usize = 8;

/// The requests of the slow client, each for all blocks: their replies are 16 MiB, more than the sockets take.
pub(crate) const READS: usize = 512;

/// Turns of the client beside it: in each it writes, reads and flushes.
const TURNS: u32 = 10;

/// How long it waits for a reply at most, in seconds.
const LIMIT_S: u64 = 60;

// Connects to the server, and opens the export.
pub(crate) fn open<R: Abort + Net<Stream = TcpStream> + Clock>(
    rt: &R,
    alloc: Global,
    address: SocketAddr,
) -> TcpStream {
    let mut stream = connect(rt, address).expect(rt, "a connection");
    gets(
        rt,
        alloc,
        &mut stream,
        &[&FLAGS, &GO],
        &[&GREETING, &GO_ANSWER],
    );
    stream
}

// Sends bytes, and sees that the wanted ones come back.
pub(crate) fn gets(
    rt: &impl Abort,
    alloc: Global,
    stream: &mut TcpStream,
    asked: &[&[u8]],
    wanted: &[&[u8]],
) {
    let is_right = exchange(alloc, stream, asked, wanted).expect(rt, "a reply");
    assert!(rt; is_right, "a reply");
}

// Writes block 1, reads it and flushes, and sees that each is answered.
fn take_turn(rt: &impl Abort, alloc: Global, stream: &mut TcpStream) {
    let write = ask(1, 1, [0x10, 0], [0x10, 0]);
    let read = ask(0, 2, [0x10, 0], [0x10, 0]);
    let flush = ask(3, 3, [0, 0], [0, 0]);
    gets(rt, alloc, stream, &[&write, &AB_BLOCK], &[&reply(0, 1)]);
    gets(rt, alloc, stream, &[&read], &[&reply(0, 2), &AB_BLOCK]);
    gets(rt, alloc, stream, &[&flush], &[&reply(0, 3)]);
}

// Asks for all blocks, again and again, and reads no reply.
pub(crate) fn ask_for_all(rt: &impl Abort, alloc: Global, stream: &mut TcpStream) {
    let mut asked = Vec::new(alloc);
    for number in 0..READS {
        let read = ask(0, (number % 256) as u8, [0, 0], [0x80, 0]);
        asked.extend_from_slice(&read).expect(rt, "memory");
    }
    stream.write_all(asked.as_slice()).expect(rt, "requests");
}

// Reads the replies, and sees that each is whole and that none is missing.
fn take_all(rt: &impl Abort, stream: &mut TcpStream) {
    let mut seen = [0usize; 256];
    let mut header = [0u8; 16];
    let mut block = [0u8; 4096];
    for _ in 0..READS {
        stream.read_exact(&mut header).expect(rt, "a header");
        let cookie = header[15];
        assert_eq!(rt; header, reply(0, cookie), "a header");
        let place = usize::from(cookie);
        seen[place] = seen[place].saturating_add(1);
        for number in 0..BLOCKS {
            stream.read_exact(&mut block).expect(rt, "a block");
            let wanted = if number == 1 { AB_BLOCK } else { ZERO_BLOCK };
            assert!(rt; block == wanted, "block {number}");
        }
    }
    assert_eq!(rt; seen, [READS / 256; 256], "replies");
}

// Has a client that reads nothing while another one takes its turns, and then reads all replies.
fn be_slow<R: Abort + Net<Stream = TcpStream> + Clock>(rt: &R, alloc: Global, address: SocketAddr) {
    let mut beside = open(rt, alloc, address);
    let limit = Some(Duration::from_secs(LIMIT_S));
    beside.set_read_timeout(limit).expect(rt, "a limit");
    take_turn(rt, alloc, &mut beside);
    let mut slow = open(rt, alloc, address);
    ask_for_all(rt, alloc, &mut slow);
    thread::sleep(rt, Duration::from_millis(100));
    for _ in 1..TURNS {
        take_turn(rt, alloc, &mut beside);
    }
    take_all(rt, &mut slow);
    take_turn(rt, alloc, &mut slow);
}

// Serves two images to both clients. Returns the server's status.
fn serve_both<
    H: Abort
        + Host
        + Files<File = File>
        + Net<Listener = TcpListener, Stream = TcpStream>
        + RandomSource
        + Env,
>(rt: H, out: &mut Vec<u8>) -> u8 {
    let alloc = rt.alloc();
    let (address, page) = free_addresses(&rt);
    let is_done = Arc::new(alloc, AtomicBool::new(false)).expect(&rt, "memory");
    let options = ServeOptions {
        local: "slow_local",
        peer: "slow_peer",
        ..options_of(&rt, Protocol::C, address, page)
    };
    let (_, status) = thread::join(
        &rt,
        || {
            be_slow(&rt, alloc, address);
            is_done.store(true, Ordering::SeqCst);
        },
        || -> u8 { serve_until(rt, &options, &is_done, out) },
    );
    status
}

#[test]
fn a_client_waits_for_no_slow_one(rt: HostRuntime) {
    let zeros = Vec::from_elem(rt.alloc(), 0u8, BLOCKS * 4096).expect(&rt, "memory");
    for file in ["slow_local", "slow_peer"] {
        fs::write(&rt, file, zeros.as_slice()).expect(&rt, "an image");
    }
    let mut out = Vec::new(rt.alloc());
    assert_eq!(rt; serve_both(rt, &mut out), 0);
    let lines = "completed 11\nsettled 11\nunmarked 0\n";
    assert_eq!(rt; out.as_slice(), lines.as_bytes());
    for file in ["slow_local", "slow_peer"] {
        fs::remove_file(&rt, file).expect(&rt, "an image");
    }
}
