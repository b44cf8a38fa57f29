//! Tests of the start of a server over two images that differ, as each option says.
use crate::clients::{free_addresses, options_of, serve_until};
use blocks::Protocol;
use serving::{FirstStart, Host, ServeOptions};
use std::env::Env;
use std::fs;
use std::fs::{File, Files};
use std::net::{Net, TcpListener, TcpStream};
use std::process::Abort;
use std::random::RandomSource;
use std::sync::Arc;
use std::sync::atomic::AtomicBool;

/// Bytes of two blocks.
const TWO_BLOCKS: usize = 8192;

// Serves two images that differ until it is ordered to end, which is at once. Returns the server's status, and whether the images are
// the same afterwards.
fn serve_from<
    H: Abort
        + Host
        + Files<File = File>
        + Net<Listener = TcpListener, Stream = TcpStream>
        + RandomSource
        + Env,
>(rt: H, first: FirstStart) -> (u8, bool) {
    let alloc = rt.alloc();
    fs::write(&rt, "first_local", &[1; TWO_BLOCKS]).expect(&rt, "an image");
    fs::write(&rt, "first_peer", &[2; TWO_BLOCKS]).expect(&rt, "an image");
    let (address, page) = free_addresses(&rt);
    let is_done = Arc::new(alloc, AtomicBool::new(true)).expect(&rt, "memory");
    let options = ServeOptions {
        local: "first_local",
        peer: "first_peer",
        first,
        ..options_of(&rt, Protocol::C, address, page)
    };
    let mut out = Vec::new(alloc);
    let status = serve_until(rt, &options, &is_done, &mut out);
    let local = fs::read(&rt, "first_local").expect(&rt, "an image");
    let peer = fs::read(&rt, "first_peer").expect(&rt, "an image");
    fs::remove_file(&rt, "first_local").expect(&rt, "an image");
    fs::remove_file(&rt, "first_peer").expect(&rt, "an image");
    (status, local == peer)
}

// A comparison finds the difference, and a copy asks for none: the peer's image becomes like the local one. Images that are taken as
// alike stay as they are, and the end tells that they differ.
#[test]
fn each_first_start_does_as_it_says(rt: HostRuntime) {
    assert_eq!(rt; serve_from(rt, FirstStart::Compare), (0, true));
    assert_eq!(rt; serve_from(rt, FirstStart::Copy), (0, true));
    assert_eq!(rt; serve_from(rt, FirstStart::AssumeEqual), (1, false));
}
