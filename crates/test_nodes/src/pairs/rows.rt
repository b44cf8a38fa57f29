//! Worked examples of writes: the events of a pair, the reply to each, and what the pair holds in between. All
//! begin with two zero-filled disks of eight blocks, both with the tuple 1,0,0,0, and run under protocol C.
use crate::pairs::events::{Given, Line, Outcome};
use blocks::{Command, Decision, Refusal, What};

/// How many blocks each disk has.
pub(crate) const BLOCKS: usize = 8;

/// A stretch of events, and what the pair holds after them.
pub(crate) struct Part {
    pub(crate) lines: &'static [Line],
    pub(crate) after: Held,
}

/// What a pair holds.
pub(crate) struct Held {
    /// The primary's identifiers.
    pub(crate) own: [u64; 4],
    /// The secondary's.
    pub(crate) peer: [u64; 4],
    /// The marked blocks.
    pub(crate) marks: &'static [u64],
    /// The byte that fills each block of the primary's disk.
    pub(crate) local_filled: [u8; BLOCKS],
    /// The same of the secondary's.
    pub(crate) peer_filled: [u8; BLOCKS],
}

/// Opens a connection with two words. Each end sends its three frames, and the primary decides.
macro_rules! hello {
    ($sync:literal, $loss:literal, $decision:expr) => {
        [
            (Given::Open($sync, $loss), Outcome::Done),
            (Given::Send, Outcome::Went(Command::Protocol)),
            (Given::Receive, Outcome::Went(Command::Protocol)),
            (Given::AckOut, Outcome::Went(Command::Protocol)),
            (Given::AckIn, Outcome::Went(Command::Protocol)),
            (Given::Send, Outcome::Went(Command::Sizes)),
            (Given::Receive, Outcome::Went(Command::Sizes)),
            (Given::AckOut, Outcome::Went(Command::Sizes)),
            (Given::AckIn, Outcome::Went(Command::Sizes)),
            (Given::Send, Outcome::Went(Command::Uuids)),
            (Given::Receive, Outcome::Went(Command::Uuids)),
            (Given::AckOut, Outcome::Went(Command::Uuids)),
            (Given::AckIn, Outcome::Decided($decision)),
        ]
    };
}

pub(crate) use hello;

/// The first connection. The disks are equal, so nothing is resynced.
pub(crate) const CONNECTED: Part = Part {
    lines: &hello!(5, 7, Decision::NoSync),
    after: Held {
        own: [1, 0, 0, 0],
        peer: [1, 0, 0, 0],
        marks: &[],
        local_filled: [0; BLOCKS],
        peer_filled: [0; BLOCKS],
    },
};

/// One write goes its whole way. Its completion ends the epoch, and the barrier follows it in the stream.
pub(crate) static WRITE: [Part; 2] = [
    CONNECTED,
    Part {
        lines: &[
            (Given::Submit(2, 1, 0xAA), Outcome::Accepted(1)),
            (Given::Local(1), Outcome::Done),
            (Given::Send, Outcome::Item(Command::Data, 0)),
            (Given::Receive, Outcome::Item(Command::Data, 0)),
            (Given::Peer(0), Outcome::Done),
            (Given::AckOut, Outcome::Went(Command::WriteAck)),
            (
                Given::AckIn,
                Outcome::More(
                    What::Frame(Command::WriteAck, None),
                    Some(1),
                    Some(1),
                    false,
                ),
            ),
            (Given::Send, Outcome::Item(Command::Barrier, 1)),
        ],
        after: Held {
            own: [1, 0, 0, 0],
            peer: [1, 0, 0, 0],
            marks: &[],
            local_filled: [0, 0, 0xAA, 0, 0, 0, 0, 0],
            peer_filled: [0, 0, 0xAA, 0, 0, 0, 0, 0],
        },
    },
];

/// Two writes of one epoch, whose second is completed first, and one of the next epoch, which waits for the
/// first at the peer's disk.
pub(crate) static EPOCHS: [Part; 3] = [
    CONNECTED,
    Part {
        lines: &[
            (Given::Submit(0, 1, 0x01), Outcome::Accepted(1)),
            (Given::Submit(1, 1, 0x02), Outcome::Accepted(2)),
            (Given::Local(1), Outcome::Done),
            (Given::Local(2), Outcome::Done),
            (Given::Send, Outcome::Item(Command::Data, 0)),
            (Given::Send, Outcome::Item(Command::Data, 1)),
            (Given::Receive, Outcome::Item(Command::Data, 0)),
            (Given::Receive, Outcome::Item(Command::Data, 1)),
            (Given::Peer(1), Outcome::Done),
            (Given::AckOut, Outcome::Went(Command::WriteAck)),
            (
                Given::AckIn,
                Outcome::More(
                    What::Frame(Command::WriteAck, None),
                    Some(2),
                    Some(1),
                    false,
                ),
            ),
        ],
        after: Held {
            own: [1, 0, 0, 0],
            peer: [1, 0, 0, 0],
            marks: &[],
            local_filled: [1, 2, 0, 0, 0, 0, 0, 0],
            peer_filled: [0, 2, 0, 0, 0, 0, 0, 0],
        },
    },
    Part {
        lines: &[
            (Given::Submit(2, 1, 0x03), Outcome::Accepted(3)),
            (Given::Send, Outcome::Item(Command::Barrier, 2)),
            (Given::Send, Outcome::Item(Command::Data, 3)),
            (Given::Receive, Outcome::Item(Command::Barrier, 2)),
            (Given::Receive, Outcome::Item(Command::Data, 3)),
            (Given::Peer(3), Outcome::Refused(Refusal::EpochOpen)),
            (Given::Peer(0), Outcome::Done),
            (Given::Peer(3), Outcome::Done),
            (Given::Peer(3), Outcome::Refused(Refusal::UnknownJob)),
            (Given::AckOut, Outcome::Went(Command::WriteAck)),
            (
                Given::AckIn,
                Outcome::More(What::Frame(Command::WriteAck, None), Some(1), None, false),
            ),
            (Given::AckOut, Outcome::Went(Command::BarrierAck)),
            (Given::AckIn, Outcome::Went(Command::BarrierAck)),
            (Given::AckOut, Outcome::Went(Command::WriteAck)),
            (Given::AckIn, Outcome::Went(Command::WriteAck)),
            (
                Given::Local(3),
                Outcome::More(What::Nothing, Some(3), Some(2), false),
            ),
        ],
        after: Held {
            own: [1, 0, 0, 0],
            peer: [1, 0, 0, 0],
            marks: &[],
            local_filled: [1, 2, 3, 0, 0, 0, 0, 0],
            peer_filled: [1, 2, 3, 0, 0, 0, 0, 0],
        },
    },
];

/// The primary's disk fails a write after its first block.
pub(crate) static LOCAL_FAULT: [Part; 3] = [
    CONNECTED,
    Part {
        lines: &[
            (Given::Submit(2, 2, 0xAA), Outcome::Accepted(1)),
            (
                Given::LocalFault(1, 1),
                Outcome::More(What::Nothing, None, Some(1), false),
            ),
        ],
        after: TORN,
    },
    Part {
        lines: &[
            (Given::Submit(3, 1, 0xBB), Outcome::Accepted(2)),
            (Given::Local(1), Outcome::Refused(Refusal::UnknownJob)),
        ],
        after: TORN,
    },
];

/// What the failed write left.
const TORN: Held = Held {
    own: [1, 0, 0, 0],
    peer: [1, 0, 0, 0],
    marks: &[2, 3],
    local_filled: [0, 0, 0xAA, 0, 0, 0, 0, 0],
    peer_filled: [0; BLOCKS],
};
