//! Tests of sessions over streams.
ghost use Rattle.std.specs.Prelude.{◌≡◌, None};

use crate::callers::{Work, carry_out};
use crate::disks::{Signals, memory};
use crate::outcome::{Answers, Outcome, bring_together};
use crate::pipes::{Foreign, PipeReader, PipeWriter, pipe};
use crate::session::Case;
use blocks::{MemStore, Protocol, Refusal};
use ghost_log::Blank;
use metadata::StableFile;
use std::alloc::Global;
use std::marker::Brand;
use std::ops::Range;
use std::process::Abort;
use std::thread;
use stream_session::{Beginning, Sink, Source, StreamSession, Way, Ways};
use thread_link::{RuledIn, RuledOut};
use told::Callers;
use volume::{LockedPrimary, LockedSecondary, Runtime, SharedSession};

/// The number of bytes after which a stream that never fails would fail.
const NEVER: u64 = u64::MAX;

/// After how many bytes each end of the way to the secondary fails.
#[derive(Clone, Copy, Debug, PartialEq, Eq)]
struct Failing {
    writer: u64,
    reader: u64,
}

/// An end of the way to the secondary.
#[derive(Clone, Copy, Debug, PartialEq, Eq)]
enum End {
    Writer,
    Reader,
}

impl End {
    // Has this end fail after this number of bytes.
    fn after(self, bytes: u64) -> Failing {
        match self {
            End::Writer => Failing {
                writer: bytes,
                ..WHOLE
            },
            End::Reader => Failing {
                reader: bytes,
                ..WHOLE
            },
        }
    }
}

const WHOLE: Failing = Failing {
    writer: NEVER,
    reader: NEVER,
};

// Runs a session over pipes.
fn over_pipes<R: Abort + Runtime>(
    rt: R,
    alloc: Global,
    case: Case,
    failing: Failing,
) -> Result<Outcome, Refusal> {
    let (writer, reader) = pipe(rt, alloc, failing.writer, failing.reader).expect(&rt, "a pipe");
    let ways = Ways {
        to_secondary: Way { writer, reader },
        to_primary: whole_way(rt, alloc),
    };
    over_ways(rt, alloc, case, ways)
}

// Makes a way that does not fail.
fn whole_way<R: Abort + Runtime>(rt: R, alloc: Global) -> Way<PipeWriter<R>, PipeReader<R>> {
    let (writer, reader) = pipe(rt, alloc, NEVER, NEVER).expect(&rt, "a pipe");
    Way { writer, reader }
}

// Runs a session over two ways. Its start may be refused.
fn over_ways<R: Abort + Runtime, W: Sink, D: Source, V: Sink, E: Source>(
    rt: R,
    alloc: Global,
    case: Case,
    ways: Ways<Way<W, D>, Way<V, E>>,
) -> Result<Outcome, Refusal> {
    named_over_ways::<Brand, R, W, D, V, E>(rt, alloc, case, ways, Blank::new())
}

// Runs it in one function over its beginning, which the caller picks.
fn named_over_ways<
    B: Beginning + Send + Sync + 'static,
    R: Abort + Runtime,
    W: Sink,
    D: Source,
    V: Sink,
    E: Source,
>(
    rt: R,
    alloc: Global,
    case: Case,
    ways: Ways<Way<W, D>, Way<V, E>>,
    blank: Blank,
) -> Result<Outcome, Refusal>
    requires opening { B.opening ≡ None }
    requires log { blank.name ≡ B.name }
{
    let parts = case.parts(alloc).expect(&rt, "settings");
    let (local, peer) = (memory(&rt, alloc, false), memory(&rt, alloc, false));
    match StreamSession::<R, B, MemStore, MemStore>::start_over(
        rt, alloc, local, peer, parts, ways, blank,
    ) {
        Ok(session) => {
            let signals = Signals::new();
            let callers = session.callers();
            let answers = carry_out_over(
                &rt,
                alloc,
                session.mirror(),
                callers,
                &signals,
                case.work,
            );
            let (primary, secondary, _) = session.finish().expect(&rt, "both nodes");
            Ok(bring_together(&rt, (primary, secondary), &answers))
        }
        Err(refusal) => Err(refusal),
    }
}

// The mirror of a session over streams with metadata files of these types.
type FiledSession<R, B, F, G> = SharedSession<
    R,
    LockedPrimary<R, B, RuledOut<R>, RuledIn<R>, MemStore, F>,
    LockedSecondary<R, B, RuledOut<R>, RuledIn<R>, MemStore, G>,
>;

// Carries the work out over the mirror, whatever the type of its metadata's files.
fn carry_out_over<
    B: Beginning + Send + Sync + 'static,
    R: Abort + Runtime,
    F: StableFile + Send + 'static,
    G: StableFile + Send + 'static,
>(
    rt: &R,
    alloc: Global,
    mirror: &FiledSession<R, B, F, G>,
    callers: &Callers<B>,
    signals: &Signals,
    work: Work,
) -> Answers {
    carry_out(rt, alloc, mirror, callers, signals, work)
}

#[test]
fn each_write_over_streams_has_its_receipt(rt: HostRuntime) {
    for protocol in [Protocol::A, Protocol::B, Protocol::C] {
        let wide = Case::of(protocol, Work::Writers { cuts: 0 });
        for case in [wide, wide.over_one_frame()] {
            let outcome = over_pipes(rt, rt.alloc(), case, WHOLE).expect(&rt, "a session");
            outcome.check_no_complaints(&rt, 200, &case);
            assert_eq!(rt; outcome.linked, 200, "{case:?}");
            outcome.check_settled(&rt, 200, &case);
        }
    }
}

#[test]
fn a_session_over_streams_has_one_connection(rt: HostRuntime) {
    let case = Case::of(Protocol::C, Work::OneConnection);
    let outcome = over_pipes(rt, rt.alloc(), case, WHOLE).expect(&rt, "a session");
    assert_eq!(rt; (outcome.complaints, outcome.settled.unmarked), (0, 0));
}

#[test]
fn nothing_is_sent_over_streams_that_are_cut_from_the_start(rt: HostRuntime) {
    let case = Case::of(Protocol::C, Work::OneWrite).cut_from_the_start();
    let outcome = over_pipes(rt, rt.alloc(), case, WHOLE).expect(&rt, "a session");
    outcome.check_nothing_sent(&rt, &case);
}

/// Bytes of a hello: PROTOCOL has 12, SIZES 16, and UUIDS 40 (docs/FORMATS.md).
const HELLO_BYTES: u64 = 68;

// Returns whether a session is sound, one end of which fails after this number of bytes: its hello ends with 12, if it is cut
// off, or else its one write has its receipt, and every difference has a mark. There are thousands of them, so each is over the
// smallest link, which takes little memory.
fn is_sound<R: Abort + Runtime>(rt: R, alloc: Global, end: End, bytes: u64) -> bool {
    let case = Case::of(Protocol::C, Work::OneWrite).over_one_frame();
    match over_pipes(rt, alloc, case, end.after(bytes)) {
        Ok(outcome) => {
            outcome.receipts == 1
                && outcome.complaints == 0
                && outcome.settled.confirmed == 1
                && outcome.settled.unmarked == 0
        }
        // A reader that fails after the last byte of the hello may do so before the other end has taken the answer.
        Err(refusal) => refusal == Refusal::NotConnected && bytes <= HELLO_BYTES,
    }
}

// How many sessions run at a time, each in a thread that does one after another.
const LANES: usize = 16;

// Counts the numbers of bytes after which a stream may fail with a session that is sound.
fn count_sound<R: Abort + Runtime>(rt: R, alloc: Global, bytes: Range<u64>, end: End) -> u32 {
    let each = thread::map_indices(
        &rt,
        alloc,
        LANES,
        &|lane| {
            let mut sound = 0u32;
            for count in bytes.start..bytes.end {
                if count % LANES as u64 == lane as u64 && is_sound(rt, alloc, end, count) {
                    sound = sound.saturating_add(1);
                }
            }
            sound
        },
    )
    .expect(&rt, "memory");
    let mut all = 0u32;
    for sound in each {
        all = all.saturating_add(sound);
    }
    all
}

// Checks that each of these sessions is sound.
fn loses_nothing<R: Abort + Runtime>(
    rt: R,
    alloc: Global,
    bytes: Range<u64>,
    end: End,
    wanted: u32,
) {
    let sound = count_sound(rt, alloc, bytes, end);
    assert_eq!(&rt; sound, wanted);
}

// The hello, the DATA frame of one block and a barrier are 4,212 bytes. A stream fails after each number of them, in
// quarters.

#[test]
fn a_reader_that_fails_in_the_first_quarter_loses_nothing(rt: HostRuntime) {
    loses_nothing(rt, rt.alloc(), 0..1054, End::Reader, 1054);
}

#[test]
fn a_reader_that_fails_in_the_second_quarter_loses_nothing(rt: HostRuntime) {
    loses_nothing(rt, rt.alloc(), 1054..2108, End::Reader, 1054);
}

#[test]
fn a_reader_that_fails_in_the_third_quarter_loses_nothing(rt: HostRuntime) {
    loses_nothing(rt, rt.alloc(), 2108..3162, End::Reader, 1054);
}

#[test]
fn a_reader_that_fails_in_the_last_quarter_loses_nothing(rt: HostRuntime) {
    loses_nothing(rt, rt.alloc(), 3162..4213, End::Reader, 1051);
}

#[test]
fn a_writer_that_fails_in_the_first_quarter_loses_nothing(rt: HostRuntime) {
    loses_nothing(rt, rt.alloc(), 0..1054, End::Writer, 1054);
}

#[test]
fn a_writer_that_fails_in_the_second_quarter_loses_nothing(rt: HostRuntime) {
    loses_nothing(rt, rt.alloc(), 1054..2108, End::Writer, 1054);
}

#[test]
fn a_writer_that_fails_in_the_third_quarter_loses_nothing(rt: HostRuntime) {
    loses_nothing(rt, rt.alloc(), 2108..3162, End::Writer, 1054);
}

#[test]
fn a_writer_that_fails_in_the_last_quarter_loses_nothing(rt: HostRuntime) {
    loses_nothing(rt, rt.alloc(), 3162..4213, End::Writer, 1051);
}

// Returns the refusal of a start, if these bytes come to the secondary during its hello in place of the primary's. The
// pumps go on after them, until the refusal stops the session: nothing else ends the hello.
fn foreign<R: Abort + Runtime>(rt: R, alloc: Global, bytes: &'static [u8]) -> u8 {
    let (writer, reader) = pipe(rt, alloc, NEVER, NEVER).expect(&rt, "a pipe");
    let ways = Ways {
        to_secondary: Way {
            writer,
            reader: Foreign::new(reader, bytes),
        },
        to_primary: whole_way(rt, alloc),
    };
    let case = Case::of(Protocol::C, Work::OneWrite);
    match over_ways(rt, alloc, case, ways) {
        Ok(_) => 0,
        Err(refusal) => refusal.number(),
    }
}

#[test]
fn foreign_bytes_in_the_hello_are_refused(rt: HostRuntime) {
    let cases: [(&'static [u8], u8); 7] = [
        (b"", 12),
        (b"\x83\x5B\x00\x03\x00\x00\x00\x08", 20),
        (b"\x83\x5A\x00\x07\x00\x00\x00\x00", 21),
        (b"\x83\x5A\x00\x0B\x00\x00\x00\x05", 22),
        (b"\x83\x5A\x00\x0B\x00\x00\x00\x04\x00\x00\x00\x04", 23),
        (b"\x83\x5A\x00\x0B\x00\x00\x00\x04\x00\x00\x00\x01", 34),
        (
            b"\x83\x5A\x00\x0B\x00\x00\x00\x04\x00\x00\x00\x03\x83\x5A\x00\x0D\x00\x00\x00\x08\x00\x00\x00\x00\x00\x00\x00\x09",
            35,
        ),
    ];
    for (bytes, number) in cases {
        let found = foreign(rt, rt.alloc(), bytes);
        assert_eq!(rt; found, number, "the refusal of {} bytes", bytes.len());
    }
}
