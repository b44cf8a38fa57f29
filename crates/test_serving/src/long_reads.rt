//! Test of a READ that is told in portions.
use crate::clients::{
    AB_BLOCK, FLAGS, GO, GREETING, connect, free_addresses, options_of, reply, serve_until,
};
use crate::slow_reader::gets;
use blocks::Protocol;
use serving::{Host, ServeOptions};
use std::alloc::Global;
use std::env::Env;
use std::fs::File;
use std::io::Read;
use std::net::{Net, SocketAddr, TcpListener, TcpStream};
use std::process::Abort;
use std::random::RandomSource;
use std::rt::Files;
use std::sync::Arc;
use std::sync::atomic::{AtomicBool, Ordering};
use std::time::Clock;
use std::{fs, thread};

/// Bytes of the images: 3 MiB.
const IMAGE_BYTES: usize = 3 << 20;

/// Bytes of the answer to GO.
const GO_ANSWER_BYTES: usize = 86;

/// A WRITE of the block at 2 MiB.
const WRITE: [u8; 28] = [
    0x25, 0x60, 0x95, 0x13, 0, 0, 0, 1, 0, 0, 0, 0, 0, 0, 0, 1, 0, 0, 0, 0, 0, 0x20, 0, 0, 0, 0,
    0x10, 0,
];

/// A READ of all but the first 2 KiB and the last ones.
const READ: [u8; 28] = [
    0x25, 0x60, 0x95, 0x13, 0, 0, 0, 0, 0, 0, 0, 0, 0, 0, 0, 2, 0, 0, 0, 0, 0, 0, 0x08, 0, 0, 0x2F,
    0xF0, 0,
];

/// How many bytes it reads.
const READ_BYTES: usize = IMAGE_BYTES - 4096;

/// At which of them the written block begins.
const WRITTEN_AT: usize = (2 << 20) - 2048;

// Writes a block, and sees that a long READ has it at its place, and zeros elsewhere.
fn read_long<R: Abort + Net<Stream = TcpStream> + Clock>(
    rt: &R,
    alloc: Global,
    address: SocketAddr,
) {
    let mut stream = connect(rt, address).expect(rt, "a connection");
    gets(rt, alloc, &mut stream, &[&FLAGS, &GO], &[&GREETING]);
    let mut answer = [0u8; GO_ANSWER_BYTES];
    stream.read_exact(&mut answer).expect(rt, "an answer");
    gets(
        rt,
        alloc,
        &mut stream,
        &[&WRITE, &AB_BLOCK],
        &[&reply(0, 1)],
    );
    let mut wanted = Vec::from_elem(alloc, 0u8, READ_BYTES).expect(rt, "memory");
    wanted[WRITTEN_AT..WRITTEN_AT + 4096].copy_from_slice(&AB_BLOCK);
    gets(
        rt,
        alloc,
        &mut stream,
        &[&READ],
        &[&reply(0, 2), wanted.as_slice()],
    );
}

// Serves two images to the client. Returns the server's status.
fn serve_long<
    H: Abort
        + Host
        + Files<File = File>
        + Net<Listener = TcpListener, Stream = TcpStream>
        + RandomSource
        + Env,
>(rt: H, out: &mut Vec<u8>) -> u8 {
    let alloc = rt.alloc();
    let (address, page) = free_addresses(&rt);
    let is_done = Arc::new(alloc, AtomicBool::new(false)).expect(&rt, "memory");
    let options = ServeOptions {
        local: "long_local",
        peer: "long_peer",
        ..options_of(&rt, Protocol::C, address, page)
    };
    let (_, status) = thread::join(
        &rt,
        || {
            read_long(&rt, alloc, address);
            is_done.store(true, Ordering::SeqCst);
        },
        || -> u8 { serve_until(rt, &options, &is_done, out) },
    );
    status
}

#[test]
fn a_long_read_comes_whole(rt: HostRuntime) {
    let zeros = Vec::from_elem(rt.alloc(), 0u8, IMAGE_BYTES).expect(&rt, "memory");
    for file in ["long_local", "long_peer"] {
        fs::write(&rt, file, zeros.as_slice()).expect(&rt, "an image");
    }
    let mut out = Vec::new(rt.alloc());
    assert_eq!(rt; serve_long(rt, &mut out), 0);
    let lines = "completed 1\nsettled 1\nunmarked 0\n";
    assert_eq!(rt; out.as_slice(), lines.as_bytes());
    for file in ["long_local", "long_peer"] {
        fs::remove_file(&rt, file).expect(&rt, "an image");
    }
}
