//! Tests of whole sessions, with bytes written out by hand from the protocol document.
ghost use Rattle.std.specs.Prelude.{◌≤◌, length};
ghost use Rattle.nbd.specs.Chunks.{rest_bytes};

use device_parts::Part;
use nbd::{
    Body, Chunk, Connection, Errno, Export, NbdCommand, Pieces, Reply, Request, RequestHeader,
};
use std::alloc::{AllocError, Global};
use std::process::Abort;

/// The number of the connections.
const NUMBER: u64 = 7;

/// A client's flags: fixed newstyle and no zeros.
const FLAGS: [u8; 4] = [0, 0, 0, 3];

/// GO for the export `disk`, with a request for NBD_INFO_BLOCK_SIZE.
const GO: [u8; 28] = [
    0x49, 0x48, 0x41, 0x56, 0x45, 0x4F, 0x50, 0x54, 0, 0, 0, 7, 0, 0, 0, 12, 0, 0, 0, 4, b'd',
    b'i', b's', b'k', 0, 1, 0, 3,
];

/// The answer to GO for a device of 16 blocks: NBD_INFO_EXPORT, NBD_INFO_BLOCK_SIZE and NBD_REP_ACK.
const GO_ANSWER: [u8; 86] = [
    0x00, 0x03, 0xE8, 0x89, 0x04, 0x55, 0x65, 0xA9, 0, 0, 0, 7, 0, 0, 0, 3, 0, 0, 0, 12, 0, 0, 0,
    0, 0, 0, 0, 1, 0, 0, 0x09, 0x6D, 0x00, 0x03, 0xE8, 0x89, 0x04, 0x55, 0x65, 0xA9, 0, 0, 0, 7, 0,
    0, 0, 3, 0, 0, 0, 14, 0, 3, 0, 0, 0, 1, 0, 0, 0x10, 0, 2, 0, 0, 0, 0x00, 0x03, 0xE8, 0x89,
    0x04, 0x55, 0x65, 0xA9, 0, 0, 0, 7, 0, 0, 0, 1, 0, 0, 0, 0,
];

/// A WRITE with FUA of block 1; its payload follows.
const WRITE: [u8; 28] = [
    0x25, 0x60, 0x95, 0x13, 0, 1, 0, 1, 1, 2, 3, 4, 5, 6, 7, 8, 0, 0, 0, 0, 0, 0, 0x10, 0, 0, 0,
    0x10, 0,
];

/// A READ of the blocks 15 and 16. The device ends with block 15.
const READ_PAST_END: [u8; 28] = [
    0x25, 0x60, 0x95, 0x13, 0, 0, 0, 0, 0, 0, 0, 0, 0, 0, 0, 9, 0, 0, 0, 0, 0, 0, 0xF0, 0, 0, 0,
    0x20, 0,
];

/// A TRIM with FUA of the last 12 blocks, and one of 16 blocks from block 1 on, which ends past the device.
const TRIM: [u8; 28] = [
    0x25, 0x60, 0x95, 0x13, 0, 1, 0, 4, 0, 0, 0, 0, 0, 0, 0, 20, 0, 0, 0, 0, 0, 0, 0x40, 0, 0, 0,
    0xC0, 0,
];

const TRIM_PAST_END: [u8; 28] = [
    0x25, 0x60, 0x95, 0x13, 0, 0, 0, 4, 0, 0, 0, 0, 0, 0, 0, 21, 0, 0, 0, 0, 0, 0, 0x10, 0, 0, 1,
    0, 0,
];

/// A TRIM with NO_HOLE, a flag that it may not have.
const TRIM_WITHOUT_HOLES: [u8; 28] = [
    0x25, 0x60, 0x95, 0x13, 0, 2, 0, 4, 0, 0, 0, 0, 0, 0, 0, 22, 0, 0, 0, 0, 0, 0, 0, 0, 0, 0,
    0x10, 0,
];

/// A WRITE_ZEROES with FAST_ZERO and NO_HOLE of the whole device, and one without FAST_ZERO.
const FAST_ZEROES: [u8; 28] = [
    0x25, 0x60, 0x95, 0x13, 0, 18, 0, 6, 0, 0, 0, 0, 0, 0, 0, 23, 0, 0, 0, 0, 0, 0, 0, 0, 0, 1, 0,
    0,
];

const ZEROES: [u8; 28] = [
    0x25, 0x60, 0x95, 0x13, 0, 2, 0, 6, 0, 0, 0, 0, 0, 0, 0, 24, 0, 0, 0, 0, 0, 0, 0, 0, 0, 1, 0, 0,
];

/// A WRITE of the last byte of block 0 and the first two of block 1; its payload follows.
const WRITE_OF_TWO_BLOCKS: [u8; 28] = [
    0x25, 0x60, 0x95, 0x13, 0, 0, 0, 1, 0, 0, 0, 0, 0, 0, 0, 30, 0, 0, 0, 0, 0, 0, 0x0F, 0xFF, 0,
    0, 0, 3,
];

/// A TRIM of block 1 and of half a block before and after it.
const TRIM_OF_PARTS: [u8; 28] = [
    0x25, 0x60, 0x95, 0x13, 0, 0, 0, 4, 0, 0, 0, 0, 0, 0, 0, 31, 0, 0, 0, 0, 0, 0, 0x08, 0, 0, 0,
    0x20, 0,
];

/// STRUCTURED_REPLY, and its acknowledgement.
const STRUCTURED: [u8; 16] = [
    0x49, 0x48, 0x41, 0x56, 0x45, 0x4F, 0x50, 0x54, 0, 0, 0, 8, 0, 0, 0, 0,
];

const STRUCTURED_ANSWER: [u8; 20] = [
    0x00, 0x03, 0xE8, 0x89, 0x04, 0x55, 0x65, 0xA9, 0, 0, 0, 8, 0, 0, 0, 1, 0, 0, 0, 0,
];

/// SET_META_CONTEXT for the export `disk` with the query `base:allocation`.
const SET_CONTEXT: [u8; 47] = [
    0x49, 0x48, 0x41, 0x56, 0x45, 0x4F, 0x50, 0x54, 0, 0, 0, 10, 0, 0, 0, 31, 0, 0, 0, 4, b'd',
    b'i', b's', b'k', 0, 0, 0, 1, 0, 0, 0, 15, b'b', b'a', b's', b'e', b':', b'a', b'l', b'l',
    b'o', b'c', b'a', b't', b'i', b'o', b'n',
];

/// The answer to it where replies are structured: the context 1, and an acknowledgement.
const SET_ANSWER: [u8; 59] = [
    0x00, 0x03, 0xE8, 0x89, 0x04, 0x55, 0x65, 0xA9, 0, 0, 0, 10, 0, 0, 0, 4, 0, 0, 0, 19, 0, 0, 0,
    1, b'b', b'a', b's', b'e', b':', b'a', b'l', b'l', b'o', b'c', b'a', b't', b'i', b'o', b'n',
    0x00, 0x03, 0xE8, 0x89, 0x04, 0x55, 0x65, 0xA9, 0, 0, 0, 10, 0, 0, 0, 1, 0, 0, 0, 0,
];

/// The answer to it where they are not: ERR_INVALID.
const SET_REFUSED: [u8; 20] = [
    0x00, 0x03, 0xE8, 0x89, 0x04, 0x55, 0x65, 0xA9, 0, 0, 0, 10, 0x80, 0, 0, 3, 0, 0, 0, 0,
];

/// A BLOCK_STATUS with REQ_ONE of the whole device.
const STATUS: [u8; 28] = [
    0x25, 0x60, 0x95, 0x13, 0, 8, 0, 7, 0, 0, 0, 0, 0, 0, 0, 32, 0, 0, 0, 0, 0, 0, 0, 0, 0, 1, 0, 0,
];

/// A request to disconnect.
const DISCONNECT: [u8; 28] = [
    0x25, 0x60, 0x95, 0x13, 0, 0, 0, 2, 0, 0, 0, 0, 0, 0, 0, 10, 0, 0, 0, 0, 0, 0, 0, 0, 0, 0, 0, 0,
];

/// A connection, and what it put out.
#[derive(Drop)]
struct Session {
    connection: Connection,
    sent: Vec<u8>,
    requests: Vec<Request>,
}

impl Session {
    /// Makes a connection for an export `disk` of 16 blocks.
    fn connected(rt: &impl Abort, alloc: Global) -> Session {
        let name = String::from_str(alloc, "disk").expect(rt, "memory");
        Session {
            connection: Connection::new(alloc, Export::new(name, 16), NUMBER),
            sent: Vec::new(alloc),
            requests: Vec::new(alloc),
        }
    }

    /// Makes a connection that takes requests, and has put out nothing since.
    fn transmitting(rt: &impl Abort, alloc: Global) -> Session {
        let mut session = Session::connected(rt, alloc);
        session.feed(rt, &FLAGS);
        session.feed(rt, &GO);
        session.sent.clear();
        session
    }

    /// Feeds bytes to the connection, and keeps what it puts out.
    fn feed(&mut self, rt: &impl Abort, bytes: &[u8]) {
        let out = self.connection.feed(bytes).expect(rt, "memory");
        let (sayings, requests) = out.into_parts();
        assert_eq!(rt; sayings.of(), NUMBER);
        self.sent
            .extend_from_slice(sayings.as_slice())
            .expect(rt, "memory");
        let mut requests = requests;
        self.requests.append(&mut requests).expect(rt, "memory");
    }

    /// Feeds zeros, in pieces of 64 KiB, at which nothing is sent, and then another zero.
    fn feed_zeros(&mut self, rt: &impl Abort, count: u64) {
        let zeros = [0; 65536];
        for _ in 0..count / 65536 {
            self.feed(rt, &zeros);
        }
        self.feed(rt, &zeros[..(count % 65536) as usize]);
        self.check_sent(rt, &[]);
        self.feed(rt, &[0]);
    }

    /// Checks that the client is sent these bytes.
    fn check_sent(&self, rt: &impl Abort, bytes: &[u8]) {
        assert_eq!(rt; self.sent.as_slice(), bytes);
    }
}

#[test]
fn greets(rt: HostRuntime) {
    let session = Session::connected(&rt, rt.alloc());
    let greeting = session.connection.greet().expect(&rt, "memory");
    assert_eq!(rt;
        greeting.as_slice(),
        [
            0x4E, 0x42, 0x44, 0x4D, 0x41, 0x47, 0x49, 0x43, 0x49, 0x48, 0x41, 0x56, 0x45, 0x4F,
            0x50, 0x54, 0, 3
        ]
        .as_slice()
    );
    assert_eq!(rt; greeting.of(), NUMBER);
}

#[test]
fn answers_go(rt: HostRuntime) {
    let mut session = Session::connected(&rt, rt.alloc());
    session.feed(&rt, &FLAGS);
    session.check_sent(&rt, &[]);
    session.feed(&rt, &GO);
    session.check_sent(&rt, &GO_ANSWER);
    assert!(rt; !session.connection.is_closed());
}

/// Checks that the request is the WRITE, with its payload, and is answered under its cookie.
fn check_write(rt: &impl Abort, request: Request) {
    assert!(rt; request.command() == NbdCommand::Write && request.has_fua());
    assert_eq!(rt; (request.offset(), request.length()), (4096, 4096));
    assert_eq!(rt; request.payload().len(), 4096);
    assert_eq!(rt; request.payload().as_slice().last().copied(), Some(0x5A));
    assert_eq!(rt; request.of(), NUMBER);
    let reply = request.reply(None).encode();
    assert_eq!(rt;
        reply.as_slice(),
        [0x67, 0x44, 0x66, 0x98, 0, 0, 0, 0, 1, 2, 3, 4, 5, 6, 7, 8].as_slice()
    );
}

#[test]
fn gives_a_write(rt: HostRuntime) {
    let mut session = Session::transmitting(&rt, rt.alloc());
    session.feed(&rt, &WRITE);
    session.feed(&rt, &[0xA5; 4095]);
    assert!(rt; session.requests.is_empty());
    session.feed(&rt, &[0x5A]);
    session.check_sent(&rt, &[]);
    check_write(&rt, session.requests.pop().expect(&rt, "a request"));
}

/// Checks that these bytes give this request and no reply: its cookie, its first byte, how many it has, and whether it has FUA.
fn gives(
    rt: &(impl Abort + AllocGlobal),
    bytes: &[u8],
    command: NbdCommand,
    range: (u64, u64, u32),
    fua: bool,
) {
    let mut session = Session::transmitting(rt, rt.alloc());
    session.feed(rt, bytes);
    session.check_sent(rt, &[]);
    let request = session.requests.pop().expect(rt, "a request");
    assert!(rt; request.command() == command && request.has_fua() == fua);
    assert_eq!(rt;
        (request.cookie(), request.offset(), request.length()),
        range
    );
    assert!(rt; request.payload().is_empty());
}

#[test]
fn gives_requests_without_data(rt: HostRuntime) {
    gives(&rt, &TRIM, NbdCommand::Trim, (20, 16_384, 49_152), true);
    gives(
        &rt,
        &ZEROES,
        NbdCommand::WriteZeroes,
        (24, 0, 65_536),
        false,
    );
}

/// Checks that these bytes are answered with this error, under their cookie.
fn refuses(rt: &(impl Abort + AllocGlobal), bytes: &[u8], cookie: u8, error: u8) {
    let mut session = Session::transmitting(rt, rt.alloc());
    session.feed(rt, bytes);
    session.check_sent(
        rt,
        &[
            0x67, 0x44, 0x66, 0x98, 0, 0, 0, error, 0, 0, 0, 0, 0, 0, 0, cookie,
        ],
    );
    assert!(rt; session.requests.is_empty());
}

#[test]
fn refuses_requests_without_data(rt: HostRuntime) {
    refuses(&rt, &TRIM_PAST_END, 21, 22);
    refuses(&rt, &TRIM_WITHOUT_HOLES, 22, 22);
    refuses(&rt, &FAST_ZEROES, 23, 95);
}

/// Checks the next piece: its block, the byte of it with which it begins, and its bytes.
fn check_piece(rt: &impl Abort, pieces: &mut Pieces, block: u64, from: u32, bytes: &[u8]) {
    let piece = pieces.next().expect(rt, "memory").expect(rt, "a piece");
    assert_eq!(rt; (piece.block(), piece.from()), (block, from));
    assert_eq!(rt; piece.into_bytes().as_slice(), bytes);
}

#[test]
fn divides_a_write(rt: HostRuntime) {
    let mut session = Session::transmitting(&rt, rt.alloc());
    session.feed(&rt, &WRITE_OF_TWO_BLOCKS);
    session.feed(&rt, &[1, 2, 3]);
    let mut request = session.requests.pop().expect(&rt, "a request");
    assert!(&rt; !request.is_divided());
    let mut pieces = request.pieces(rt.alloc()).expect(&rt, "memory");
    check_piece(&rt, &mut pieces, 0, 4095, &[1]);
    check_piece(&rt, &mut pieces, 1, 0, &[2, 3]);
    assert!(rt; pieces.next().expect(&rt, "memory").is_none());
}

#[test]
fn trims_whole_blocks_alone(rt: HostRuntime) {
    let mut session = Session::transmitting(&rt, rt.alloc());
    session.feed(&rt, &TRIM_OF_PARTS);
    let mut request = session.requests.pop().expect(&rt, "a request");
    assert!(&rt; !request.is_divided());
    let mut pieces = request.pieces(rt.alloc()).expect(&rt, "memory");
    check_piece(&rt, &mut pieces, 1, 0, &[0; 4096]);
    assert!(rt; pieces.next().expect(&rt, "memory").is_none());
}

/// Makes a connection whose client has structured replies and the context, and has sent nothing since GO.
fn structured(rt: &impl Abort, alloc: Global) -> Session {
    let mut session = Session::connected(rt, alloc);
    session.feed(rt, &FLAGS);
    session.feed(rt, &STRUCTURED);
    session.check_sent(rt, &STRUCTURED_ANSWER);
    session.sent.clear();
    session.feed(rt, &SET_CONTEXT);
    session.check_sent(rt, &SET_ANSWER);
    session.sent.clear();
    session.feed(rt, &GO);
    // SEND_DF is told, too.
    let sent = session.sent.as_slice();
    assert!(rt; sent.len() >= 32);
    assert_eq!(rt; &sent[30..32], [0x09, 0xED].as_slice());
    session.sent.clear();
    session
}

#[test]
fn gives_a_block_status(rt: HostRuntime) {
    let mut session = structured(&rt, rt.alloc());
    session.feed(&rt, &STATUS);
    session.check_sent(&rt, &[]);
    let request = session.requests.pop().expect(&rt, "a request");
    assert!(rt; request.command() == NbdCommand::BlockStatus && request.wants_one());
    assert!(rt; request.terms().allocation && request.terms().structured);
}

#[test]
fn a_context_wants_structured_replies(rt: HostRuntime) {
    let mut session = Session::connected(&rt, rt.alloc());
    session.feed(&rt, &FLAGS);
    session.feed(&rt, &SET_CONTEXT);
    session.check_sent(&rt, &SET_REFUSED);
    let mut plain = Session::transmitting(&rt, rt.alloc());
    plain.feed(&rt, &STATUS);
    check_answered(&rt, &plain, 32, Errno::Invalid);
}

#[test]
fn a_refused_read_is_told_in_a_chunk(rt: HostRuntime) {
    let mut session = structured(&rt, rt.alloc());
    session.feed(&rt, &READ_PAST_END);
    session.check_sent(
        &rt,
        &[
            0x66, 0x8E, 0x33, 0xEF, 0, 1, 0x80, 0x01, 0, 0, 0, 0, 0, 0, 0, 9, 0, 0, 0, 6, 0, 0, 0,
            22, 0, 0,
        ],
    );
}

/// Checks the bytes that spell a chunk of the reply to the request 9.
fn spells(rt: &impl Abort, alloc: Global, is_last: bool, body: Body, bytes: &[u8])
    requires { length (rest_bytes body) ≤ 33554432 }
{
    let chunk = Chunk {
        cookie: 9,
        is_last,
        body,
    };
    let mut out = Vec::new(alloc);
    chunk.put(&mut out).expect(rt, "memory");
    assert_eq!(rt; out.as_slice(), bytes);
}

#[test]
#[tactic(auto, unfolding(nbd::specs::Chunks::rest_bytes))]
fn spells_chunks(rt: HostRuntime) {
    let hole = [
        0x66, 0x8E, 0x33, 0xEF, 0, 0, 0, 2, 0, 0, 0, 0, 0, 0, 0, 9, 0, 0, 0, 12, 0, 0, 0, 0, 0, 0,
        0x10, 0, 0, 0, 0x20, 0,
    ];
    spells(&rt, rt.alloc(), false, Body::Hole(4096, 8192), &hole);
    let mut data = Vec::new(rt.alloc());
    data.extend_from_slice(&[7, 8]).expect(&rt, "memory");
    let two = [
        0x66, 0x8E, 0x33, 0xEF, 0, 1, 0, 1, 0, 0, 0, 0, 0, 0, 0, 9, 0, 0, 0, 10, 0, 0, 0, 0, 0, 0,
        0, 5, 7, 8,
    ];
    spells(&rt, rt.alloc(), true, Body::Data(5, data), &two);
}

/// Makes a whole session: a write, a read that is refused, and the end.
fn whole_session(alloc: Global) -> Result<Vec<u8>, AllocError> {
    let mut stream = Vec::new(alloc);
    for part in [
        FLAGS.as_slice(),
        GO.as_slice(),
        WRITE.as_slice(),
        [7; 4096].as_slice(),
        READ_PAST_END.as_slice(),
        DISCONNECT.as_slice(),
    ] {
        stream.extend_from_slice(part)?;
    }
    Ok(stream)
}

/// Feeds a stream to a connection in pieces of this size, and checks that the last piece closes it.
fn fed_in_pieces(rt: &impl Abort, alloc: Global, stream: &[u8], size: usize) -> Session {
    let mut session = Session::connected(rt, alloc);
    for piece in stream.chunks(size.max(1)) {
        assert!(rt; !session.connection.is_closed());
        session.feed(rt, piece);
    }
    assert!(rt; session.connection.is_closed());
    session
}

#[test]
fn takes_byte_after_byte(rt: HostRuntime) {
    let stream = whole_session(rt.alloc()).expect(&rt, "memory");
    let session = fed_in_pieces(&rt, rt.alloc(), &stream, 1);
    let at_once = fed_in_pieces(&rt, rt.alloc(), &stream, stream.len());
    session.check_sent(&rt, &at_once.sent);
    assert_eq!(rt; (session.requests.len(), at_once.requests.len()), (1, 1));
    // After the answer to GO the READ is refused with EINVAL, under its cookie.
    assert_eq!(rt; session.sent.len(), 102);
    assert_eq!(rt;
        &session.sent.as_slice()[86..],
        [0x67, 0x44, 0x66, 0x98, 0, 0, 0, 22, 0, 0, 0, 0, 0, 0, 0, 9].as_slice()
    );
}

/// Checks that the connection closes at these bytes, and then puts out nothing, even after a GO.
fn closes_at(rt: &impl Abort, mut session: Session, garbage: &[u8]) {
    session.feed(rt, garbage);
    assert!(rt; session.connection.is_closed());
    session.feed(rt, &GO);
    session.check_sent(rt, &[]);
    assert!(rt; session.requests.is_empty());
}

#[test]
fn closes_at_garbage(rt: HostRuntime) {
    closes_at(&rt, Session::connected(&rt, rt.alloc()), &[0, 0, 0, 4]);
    closes_at(&rt, Session::transmitting(&rt, rt.alloc()), &[0x67; 100]);
}

#[test]
fn skips_a_long_option(rt: HostRuntime) {
    let mut session = Session::connected(&rt, rt.alloc());
    session.feed(&rt, &FLAGS);
    let option = [
        0x49, 0x48, 0x41, 0x56, 0x45, 0x4F, 0x50, 0x54, 0, 0, 0, 99, 0xFF, 0xFF, 0xFF, 0xFF,
    ];
    session.feed(&rt, &option);
    session.feed_zeros(&rt, 0xFFFF_FFFE);
    let too_big = [
        0x00, 0x03, 0xE8, 0x89, 0x04, 0x55, 0x65, 0xA9, 0, 0, 0, 99, 0x80, 0, 0, 9, 0, 0, 0, 0,
    ];
    session.check_sent(&rt, &too_big);
    assert!(rt; !session.connection.is_closed());
}

/// Checks that the client is sent one reply, with this cookie and this error.
fn check_answered(rt: &impl Abort, session: &Session, cookie: u64, error: Errno) {
    assert_eq!(rt; session.sent.len(), 16);
    let reply = Reply::decode(session.sent.as_slice()).expect(rt, "a reply");
    assert_eq!(rt; reply.cookie, cookie);
    assert!(rt; reply.error == Some(error));
    assert!(rt; session.requests.is_empty());
}

#[test]
fn skips_a_long_write(rt: HostRuntime) {
    let mut session = Session::transmitting(&rt, rt.alloc());
    let header = RequestHeader {
        flags: 0,
        kind: NbdCommand::Write.number(),
        cookie: 11,
        offset: 0,
        length: 0xFFFF_F000,
    };
    session.feed(&rt, header.encode().as_slice());
    session.feed_zeros(&rt, 0xFFFF_EFFF);
    check_answered(&rt, &session, 11, Errno::Overflow);
}

/// Returns a connection that answers EXPORT_NAME with an empty name, if the client has these flags.
fn export_name(rt: &impl Abort, alloc: Global, flags: u8) -> Session {
    let mut session = Session::connected(rt, alloc);
    session.feed(rt, &[0, 0, 0, flags]);
    let option = [
        0x49, 0x48, 0x41, 0x56, 0x45, 0x4F, 0x50, 0x54, 0, 0, 0, 1, 0, 0, 0, 0,
    ];
    session.feed(rt, &option);
    session
}

#[test]
fn answers_export_name(rt: HostRuntime) {
    let short = export_name(&rt, rt.alloc(), 3);
    short.check_sent(&rt, &[0, 0, 0, 0, 0, 1, 0, 0, 0x09, 0x6D]);
    let long = export_name(&rt, rt.alloc(), 1);
    assert_eq!(rt; long.sent.len(), 134);
    assert_eq!(rt; &long.sent.as_slice()[..10], short.sent.as_slice());
    assert!(rt; long.sent.iter().skip(10).all(|byte| *byte == 0));
}
