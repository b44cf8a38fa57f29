//! Test of flushes that wait for the peer's disk, beside a client that reads.
ghost use Rattle.std.specs.Prelude.{◌≡◌};

use crate::clients::{Order, ZERO_BLOCK, ask, free_addresses, reply};
use crate::flushes::{LateDevice, requests_under};
use crate::slow_reader::{gets, open};
use blocks::{Protocol, Refusal};
use ghost_log::{Blank, LogName};
use serve_clients::{Listeners, Service, Shown, start_threads, work};
use serve_page::StartedAfter;
use serve_requests::Answered;
use server_log::Style;
use serving::{Host, ListenAt};
use std::alloc::Global;
use std::env::Env;
use std::fs::File;
use std::io::{Read, Write};
use std::marker::Brand;
use std::net::{Net, SocketAddr, TcpListener, TcpStream};
use std::process::Abort;
use std::random::RandomSource;
use std::rt::Files;
use std::sync::Arc;
use std::sync::atomic::{AtomicBool, Ordering};
use std::thread;
use std::time::{Clock, Duration};

/// Blocks of the device.
const BLOCKS: u32 = 8;

/// FLUSHes that wait: more than the server has threads for requests.
const FLUSHES: u8 = 6;

/// The time between two of them, in which a thread takes one, in milliseconds.
const PAUSE_MS: u64 = 20;

/// How long a client waits for a reply at most, in seconds.
const LIMIT_S: u64 = 60;

// Sends FLUSHes, one after another, and has a second client read a block: it gets it before the writes are released that
// the FLUSHes wait for. Then each FLUSH is answered.
fn read_beside_flushes<R: Abort + Net<Stream = TcpStream> + Clock, J: LogName>(
    rt: &R,
    alloc: Global,
    address: SocketAddr,
    device: &LateDevice<R, J>,
) {
    let mut flusher = open(rt, alloc, address);
    for cookie in 0..FLUSHES {
        flusher
            .write_all(&ask(3, cookie, [0, 0], [0, 0]))
            .expect(rt, "a request");
        thread::sleep(rt, Duration::from_millis(PAUSE_MS));
    }
    let mut reader = open(rt, alloc, address);
    let limit = Some(Duration::from_secs(LIMIT_S));
    reader.set_read_timeout(limit).expect(rt, "a limit");
    let read = ask(0, 9, [0, 0], [0x10, 0]);
    gets(
        rt,
        alloc,
        &mut reader,
        &[&read],
        &[&reply(0, 9), &ZERO_BLOCK],
    );
    device.release();
    check_each_answered(rt, &mut flusher);
}

// Reads a reply for each FLUSH. Each has one of its own, whatever their order.
fn check_each_answered(rt: &impl Abort, flusher: &mut TcpStream) {
    let mut seen = [0usize; FLUSHES as usize];
    let mut header = [0u8; 16];
    for _ in 0..FLUSHES {
        flusher.read_exact(&mut header).expect(rt, "a reply");
        let cookie = header[15];
        assert_eq!(rt; header, reply(0, cookie), "a FLUSH");
        if let Some(count) = seen.get_mut(usize::from(cookie)) {
            *count = count.saturating_add(1);
        }
    }
    assert_eq!(rt; seen, [1; FLUSHES as usize], "replies");
}

// Serves the device under A until the clients have done their work.
fn serve_device<
    J: LogName + Send + Sync + 'static,
    H: Abort
        + Host
        + Files<File = File>
        + Net<Listener = TcpListener, Stream = TcpStream>
        + RandomSource
        + Env,
>(rt: H, blank: Blank)
    requires { blank.name ≡ J.name }
{
    let alloc = rt.alloc();
    let (address, _) = free_addresses(&rt);
    let (listeners, _) = Listeners::open(&rt, &[ListenAt::Ip(address)], &[], None)
        .ok()
        .expect(&rt, "a listener");
    let requests = requests_under(&rt, Protocol::A, "flushed_held");
    let after = StartedAfter::NoMetadata;
    let service = Service::new(
        alloc,
        BLOCKS,
        Protocol::A,
        requests,
        2,
        after,
        Style::Dated,
        Shown::nothing(alloc).expect(&rt, "memory"),
    );
    let service = service.expect(&rt, "memory");
    let service = Arc::new(alloc, service).expect(&rt, "memory");
    let is_done = Arc::new(alloc, AtomicBool::new(false)).expect(&rt, "memory");
    let order = Order {
        rt,
        is_done: Arc::try_clone(&is_done).expect(&rt, "memory"),
        is_given: false,
    };
    start_threads(&rt, &service, listeners, order)
        .ok()
        .expect(&rt, "threads");
    let (device, callers) = LateDevice::<H, J>::new(rt, u64::MAX, blank);
    let mut err = Vec::new(alloc);
    let (_, answered) = thread::join(
        &rt,
        || {
            read_beside_flushes(&rt, alloc, address, &device);
            is_done.store(true, Ordering::SeqCst);
        },
        || -> Result<Answered<J>, Refusal> {
            work(&rt, &service, &device, &callers, None, &mut err)
        },
    );
    assert!(rt; answered.expect(&rt, "receipts").receipts().is_empty());
}

// A FLUSH under A waits until the writes before it are released. However many wait, they hold no other request up.
#[test]
fn flushes_hold_no_other_request_up(rt: HostRuntime) {
    serve_device::<Brand, HostRuntime>(rt, Blank::new());
}
