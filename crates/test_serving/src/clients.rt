//! Tests of a client over a socket. Its bytes and the server's are written out by hand from the protocol document.
use blocks::Protocol;
use server_log::Style;
use serving::{
    AnyBytes, AnyContents, FirstStart, Host, ListenAt, MetadataFiles, ServeOptions, serve,
};
use std::alloc::{AllocError, Global};
use std::env::Env;
use std::fs::File;
use std::io::{Read, Write};
use std::net::{Ipv4Addr, Net, SocketAddr, TcpListener, TcpStream};
use std::process::Abort;
use std::random::RandomSource;
use std::rt::Files;
use std::sync::atomic::{AtomicBool, Ordering};
use std::sync::{Arc, Wait};
use std::time::{Clock, Duration};
use std::{fs, io, thread};

/// Bytes of the images: 8 blocks.
const IMAGE_BYTES: usize = 32_768;

/// How often a client tries to connect.
const LOOKS: u32 = 1000;

pub(crate) const GREETING: [u8; 18] = *b"NBDMAGICIHAVEOPT\0\x03";

/// The client's flags: fixed newstyle and no zeros.
pub(crate) const FLAGS: [u8; 4] = [0, 0, 0, 3];

/// GO for the default export, with a request for NBD_INFO_BLOCK_SIZE.
pub(crate) const GO: [u8; 24] = *b"IHAVEOPT\0\0\0\x07\0\0\0\x08\0\0\0\0\0\x01\0\x03";

/// The answer to GO: NBD_INFO_EXPORT of 32,768 bytes, NBD_INFO_BLOCK_SIZE and NBD_REP_ACK.
pub(crate) const GO_ANSWER: [u8; 86] = [
    0x00, 0x03, 0xE8, 0x89, 0x04, 0x55, 0x65, 0xA9, 0, 0, 0, 7, 0, 0, 0, 3, 0, 0, 0, 12, 0, 0, 0,
    0, 0, 0, 0, 0, 0x80, 0, 0x09, 0x6D, 0x00, 0x03, 0xE8, 0x89, 0x04, 0x55, 0x65, 0xA9, 0, 0, 0, 7,
    0, 0, 0, 3, 0, 0, 0, 14, 0, 3, 0, 0, 0, 1, 0, 0, 0x10, 0, 2, 0, 0, 0, 0x00, 0x03, 0xE8, 0x89,
    0x04, 0x55, 0x65, 0xA9, 0, 0, 0, 7, 0, 0, 0, 1, 0, 0, 0, 0,
];

pub(crate) const AB_BLOCK: [u8; 4096] = [0xAB; 4096];

pub(crate) const ZERO_BLOCK: [u8; 4096] = [0; 4096];

/// Makes the header of a request.
pub(crate) fn ask(kind: u8, cookie: u8, offset: [u8; 2], length: [u8; 2]) -> [u8; 28] {
    [
        0x25, 0x60, 0x95, 0x13, 0, 0, 0, kind, 0, 0, 0, 0, 0, 0, 0, cookie, 0, 0, 0, 0, 0, 0,
        offset[0], offset[1], 0, 0, length[0], length[1],
    ]
}

/// Makes the header of a reply.
pub(crate) fn reply(error: u8, cookie: u8) -> [u8; 16] {
    [
        0x67, 0x44, 0x66, 0x98, 0, 0, 0, error, 0, 0, 0, 0, 0, 0, 0, cookie,
    ]
}

/// A standard input whose line `quit` comes after a client has done its work.
#[derive(Drop)]
pub(crate) struct Order<R: Drop> {
    pub(crate) rt: R,
    pub(crate) is_done: Arc<AtomicBool, Global>,
    pub(crate) is_given: bool,
}

impl<R: Wait + Clock + Drop> Read for Order<R> {
    fn read(&mut self, buffer: &mut [u8]) -> io::Result<usize> {
        for _ in self.rt.forever() {
            if self.is_done.load(Ordering::SeqCst) {
                break;
            }
            thread::sleep(&self.rt, Duration::from_millis(5));
        }
        if self.is_given {
            return Ok(0);
        }
        self.is_given = true;
        b"quit\n".as_slice().read(buffer)
    }
}

// Sends bytes. Returns whether the wanted ones come back.
pub(crate) fn exchange<S: Read + Write>(
    alloc: Global,
    stream: &mut S,
    asked: &[&[u8]],
    wanted: &[&[u8]],
) -> io::Result<bool> {
    for bytes in asked {
        stream.write_all(bytes)?;
    }
    for bytes in wanted {
        if !arrives(alloc, stream, bytes)? {
            return Ok(false);
        }
    }
    Ok(true)
}

// Returns whether these bytes come.
fn arrives<S: Read>(alloc: Global, stream: &mut S, wanted: &[u8]) -> io::Result<bool> {
    let mut came = Vec::from_elem(alloc, 0u8, wanted.len())?;
    stream.read_exact(&mut came)?;
    Ok(came.as_slice() == wanted)
}

// Connects to the server, when it listens.
pub(crate) fn connect<R: Net<Stream = TcpStream> + Clock>(
    rt: &R,
    address: SocketAddr,
) -> io::Result<TcpStream> {
    for _ in 0..LOOKS {
        if let Ok(stream) = TcpStream::connect(rt, address) {
            return Ok(stream);
        }
        thread::sleep(rt, Duration::from_millis(5));
    }
    TcpStream::connect(rt, address)
}

/// Does what a client does. Returns whether each answer is right.
pub(crate) fn talk<S: Read + Write>(alloc: Global, stream: &mut S) -> io::Result<bool> {
    let is_open = exchange(alloc, stream, &[&FLAGS, &GO], &[&GREETING, &GO_ANSWER])?;
    let is_changed = change(alloc, stream)?;
    let is_read = exchange(
        alloc,
        stream,
        &[&ask(0, 4, [0x10, 0], [0x20, 0])],
        &[&reply(0, 4), &AB_BLOCK, &ZERO_BLOCK],
    )?;
    let is_done_at_once = burst(alloc, stream)?;
    let is_beside = change_parts(alloc, stream)?;
    let is_refused = overstep(alloc, stream)?;
    exchange(alloc, stream, &[&ask(2, 7, [0, 0], [0, 0])], &[])?;
    Ok(is_open && is_changed && is_read && is_done_at_once && is_beside && is_refused)
}

// Writes the last byte of block 3 and the first of block 4, reads them with those beside them, and zeroes them again. Reads the end of
// block 1, too. Returns whether each answer is right.
fn change_parts<S: Read + Write>(alloc: Global, stream: &mut S) -> io::Result<bool> {
    let write = ask(1, 11, [0x3F, 0xFF], [0, 2]);
    let read = ask(0, 12, [0x3F, 0xFE], [0, 4]);
    let zero = ask(6, 13, [0x3F, 0xFF], [0, 2]);
    let end = ask(0, 14, [0x1F, 0xFF], [0, 2]);
    let is_written = exchange(alloc, stream, &[&write, &[7, 8]], &[&reply(0, 11)])?;
    let is_read = exchange(alloc, stream, &[&read], &[&reply(0, 12), &[0, 7, 8, 0]])?;
    let is_zeroed = exchange(alloc, stream, &[&zero], &[&reply(0, 13)])?;
    let is_end_read = exchange(alloc, stream, &[&end], &[&reply(0, 14), &[0xAB, 0]])?;
    Ok(is_written && is_read && is_zeroed && is_end_read)
}

// Writes, zeroes and flushes. Returns whether each answer is right.
fn change<S: Read + Write>(alloc: Global, stream: &mut S) -> io::Result<bool> {
    let write = ask(1, 1, [0x10, 0], [0x20, 0]);
    let zero = ask(6, 2, [0x20, 0], [0x10, 0]);
    let flush = ask(3, 3, [0, 0], [0, 0]);
    let is_written = exchange(
        alloc,
        stream,
        &[&write, &AB_BLOCK, &AB_BLOCK],
        &[&reply(0, 1)],
    )?;
    let is_zeroed = exchange(alloc, stream, &[&zero], &[&reply(0, 2)])?;
    let is_flushed = exchange(alloc, stream, &[&flush], &[&reply(0, 3)])?;
    Ok(is_written && is_zeroed && is_flushed)
}

// Asks for what is refused: a read past the end with EINVAL, a write past the end with ENOSPC.
fn overstep<S: Read + Write>(alloc: Global, stream: &mut S) -> io::Result<bool> {
    let read = ask(0, 5, [0x7F, 0xFF], [0, 2]);
    let past = ask(1, 6, [0x80, 0], [0x10, 0]);
    let is_read_refused = exchange(alloc, stream, &[&read], &[&reply(22, 5)])?;
    let is_end_refused = exchange(alloc, stream, &[&past, &AB_BLOCK], &[&reply(28, 6)])?;
    Ok(is_read_refused && is_end_refused)
}

// Asks for two writes of the same block and a read of another before any reply has come. Returns whether each is
// answered once, in whatever order.
fn burst<S: Read + Write>(alloc: Global, stream: &mut S) -> io::Result<bool> {
    let asked = asked_at_once(alloc)?;
    stream.write_all(asked.as_slice())?;
    let mut seen = [false; 3];
    for _ in 0..3 {
        if !is_one_answered(alloc, stream, &mut seen)? {
            return Ok(false);
        }
    }
    Ok(true)
}

// Makes the requests 8 to 10, in one piece.
fn asked_at_once(alloc: Global) -> Result<Vec<u8>, AllocError> {
    [
        ask(1, 8, [0x40, 0], [0x10, 0]).as_slice(),
        &ZERO_BLOCK,
        &ask(1, 9, [0x40, 0], [0x10, 0]),
        &ZERO_BLOCK,
        &ask(0, 10, [0x10, 0], [0x10, 0]),
    ]
    .concat(alloc)
}

// Returns whether the next reply is right for one of these requests, whose reply did not come before.
fn is_one_answered<S: Read>(
    alloc: Global,
    stream: &mut S,
    seen: &mut [bool; 3],
) -> io::Result<bool> {
    let mut header = [0u8; 16];
    stream.read_exact(&mut header)?;
    let cookie = header[15];
    if header != reply(0, cookie) || !(8..=10).contains(&cookie) {
        return Ok(false);
    }
    let place = usize::from(cookie) - 8;
    if seen[place] {
        return Ok(false);
    }
    seen[place] = true;
    if cookie == 10 {
        return arrives(alloc, stream, &AB_BLOCK);
    }
    Ok(true)
}

/// The request of a client of the status page.
pub(crate) const PAGE: &[u8] = b"GET / HTTP/1.1\r\nHost: localhost\r\n\r\n";

/// The beginning of the answer, and that of its body.
const PAGE_ANSWER: &[u8] = b"HTTP/1.1 200 OK\r\n";

const PAGE_LINE: &[u8] = b"\r\n\r\ncs:Connected ro:Primary/Secondary ds:UpToDate/UpToDate pr:";

/// Returns whether the status page says that both nodes are connected.
pub(crate) fn is_answered<S: Read + Write>(alloc: Global, stream: &mut S) -> io::Result<bool> {
    stream.write_all(PAGE)?;
    let mut came = Vec::new(alloc);
    stream.read_to_end(&mut came)?;
    let came = came.as_slice();
    let is_line = came
        .windows(PAGE_LINE.len())
        .any(|bytes| bytes == PAGE_LINE);
    Ok(came.starts_with(PAGE_ANSWER) && is_line)
}

// Returns whether a client gets the right answers at this address.
fn is_served<R: Net<Stream = TcpStream> + Clock>(
    rt: &R,
    alloc: Global,
    address: SocketAddr,
) -> io::Result<bool> {
    let mut stream = connect(rt, address)?;
    talk(alloc, &mut stream)
}

// Returns whether the page at this address says that both nodes are connected.
fn is_shown<R: Net<Stream = TcpStream> + Clock>(
    rt: &R,
    alloc: Global,
    page: SocketAddr,
) -> io::Result<bool> {
    let mut stream = connect(rt, page)?;
    is_answered(alloc, &mut stream)
}

// Returns two addresses at which nothing listens.
pub(crate) fn free_addresses<R: Abort + Net<Listener = TcpListener, Stream = TcpStream>>(
    rt: &R,
) -> (SocketAddr, SocketAddr) {
    let one = TcpListener::bind(rt, (Ipv4Addr::LOCALHOST, 0)).expect(rt, "a listener");
    let other = TcpListener::bind(rt, (Ipv4Addr::LOCALHOST, 0)).expect(rt, "a listener");
    (
        one.local_addr().expect(rt, "an address"),
        other.local_addr().expect(rt, "an address"),
    )
}

// Returns the options under which the images are served.
pub(crate) fn options_of(
    rt: &(impl Abort + AllocGlobal),
    protocol: Protocol,
    listen: SocketAddr,
    page: SocketAddr,
) -> ServeOptions<'static> {
    let listen = Vec::from_array(rt.alloc(), [ListenAt::Ip(listen)]).expect(rt, "memory");
    let pages = Vec::from_array(rt.alloc(), [ListenAt::Ip(page)]).expect(rt, "memory");
    ServeOptions {
        local: "serving_local",
        peer: "serving_peer",
        blocks: None,
        metadata: MetadataFiles::Unkept,
        protocol,
        listen,
        pages,
        name: None,
        cut_every: None,
        first: FirstStart::Compare,
        compare: false,
    }
}

/// Serves two images until a client has done its work. What the server prints goes to `out`. Returns its status.
pub(crate) fn serve_until<
    H: Abort
        + Host
        + Files<File = File>
        + Net<Listener = TcpListener, Stream = TcpStream>
        + RandomSource
        + Env,
>(rt: H, options: &ServeOptions<'_>, is_done: &Arc<AtomicBool, Global>, out: &mut Vec<u8>) -> u8 {
    let order = Order {
        rt,
        is_done: Arc::try_clone(is_done).expect(&rt, "memory"),
        is_given: false,
    };
    let mut err = Vec::new(rt.alloc());
    serve::<AnyContents, AnyBytes, AnyBytes, _, _, _, _>(
        &rt,
        options,
        Style::Dated,
        order,
        out,
        &mut err,
    ).code()
}

/// Writes an image of zeros for a client of the tests.
pub(crate) fn put_image(rt: &(impl Abort + AllocGlobal + Files), file: &str) {
    let zeros = Vec::from_elem(rt.alloc(), 0u8, IMAGE_BYTES).expect(rt, "memory");
    fs::write(rt, file, zeros.as_slice()).expect(rt, "an image");
}

// Serves two images to one client, under this protocol. Returns the server's status, and whether the client got the
// right answers.
fn serve_one<
    H: Abort
        + Host
        + Files<File = File>
        + Net<Listener = TcpListener, Stream = TcpStream>
        + RandomSource
        + Env,
>(rt: H, protocol: Protocol, out: &mut Vec<u8>) -> (u8, bool) {
    let alloc = rt.alloc();
    let (address, page) = free_addresses(&rt);
    let is_done = Arc::new(alloc, AtomicBool::new(false)).expect(&rt, "memory");
    let options = options_of(&rt, protocol, address, page);
    let (is_right, status) = thread::join(
        &rt,
        || -> bool {
            let answer = is_served(&rt, alloc, address);
            let shown = is_shown(&rt, alloc, page);
            is_done.store(true, Ordering::SeqCst);
            answer.expect(&rt, "answers") && shown.expect(&rt, "a page")
        },
        || -> u8 { serve_until(rt, &options, &is_done, out) },
    );
    (status, is_right)
}

// Writes two images of zeros where the server looks for them.
fn put_images(rt: &(impl Abort + AllocGlobal + Files)) {
    for file in ["serving_local", "serving_peer"] {
        put_image(rt, file);
    }
}

// Checks that the image has what the client wrote, and removes it.
fn check_written(rt: &(impl Abort + AllocGlobal + Files), protocol: Protocol, file: &str) {
    let mut wanted = Vec::new(rt.alloc());
    for block in 0..8 {
        let bytes = if block == 1 { &AB_BLOCK } else { &ZERO_BLOCK };
        wanted.extend_from_slice(bytes).expect(rt, "memory");
    }
    let image = fs::read(rt, file).expect(rt, "an image");
    assert_eq!(rt; image.as_slice(), wanted.as_slice(), "{protocol:?} {file}");
    fs::remove_file(rt, file).expect(rt, "an image");
}

#[test]
fn a_client_reads_what_it_wrote(rt: HostRuntime) {
    for protocol in [Protocol::A, Protocol::B, Protocol::C] {
        put_images(&rt);
        let mut out = Vec::new(rt.alloc());
        let (status, is_right) = serve_one(rt, protocol, &mut out);
        assert!(rt; is_right, "{protocol:?}");
        assert_eq!(rt; status, 0, "{protocol:?}");
        let lines = "completed 8\nsettled 8\nunmarked 0\n";
        assert_eq!(rt; out.as_slice(), lines.as_bytes(), "{protocol:?}");
        for file in ["serving_local", "serving_peer"] {
            check_written(&rt, protocol, file);
        }
    }
}
