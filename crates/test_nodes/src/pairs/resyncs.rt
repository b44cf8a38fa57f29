//! Worked examples of resyncs: two blocks are written while no connection is established, and the next connection
//! copies them.
use crate::pairs::events::{Given, Outcome};
use crate::pairs::rows::{BLOCKS, CONNECTED, Held, Part, hello};
use blocks::{Command, Decision, Refusal, What};

/// The connection is lost, and two blocks are written without one.
const PARTED: Part = Part {
    lines: &[
        (Given::ClosePrimary, Outcome::Closed(0)),
        (Given::CloseSecondary, Outcome::Done),
        (Given::Submit(3, 1, 0xAA), Outcome::Accepted(1)),
        (Given::Submit(6, 1, 0xBB), Outcome::Accepted(2)),
        (
            Given::Local(1),
            Outcome::More(What::Nothing, Some(1), None, false),
        ),
        (
            Given::Local(2),
            Outcome::More(What::Nothing, Some(2), None, false),
        ),
    ],
    after: Held {
        own: [7, 1, 0, 0],
        peer: [1, 0, 0, 0],
        marks: &[3, 6],
        local_filled: [0, 0, 0, 0xAA, 0, 0, 0xBB, 0],
        peer_filled: [0; BLOCKS],
    },
};

/// The second connection begins a resync of them.
const RESYNCING: Part = Part {
    lines: &hello!(9, 11, Decision::BitmapSync),
    after: Held {
        own: [7, 9, 1, 0],
        peer: [1, 0, 0, 0],
        marks: &[3, 6],
        local_filled: [0, 0, 0, 0xAA, 0, 0, 0xBB, 0],
        peer_filled: [0; BLOCKS],
    },
};

/// The secondary receives the word that makes it the target.
const TARGET_TOLD: Part = Part {
    lines: &[
        (Given::Send, Outcome::Item(Command::SyncUuid, 0)),
        (Given::Receive, Outcome::Item(Command::SyncUuid, 0)),
    ],
    after: Held {
        own: [7, 9, 1, 0],
        peer: [9, 0, 0, 0],
        marks: &[3, 6],
        local_filled: [0, 0, 0, 0xAA, 0, 0, 0xBB, 0],
        peer_filled: [0; BLOCKS],
    },
};

/// The first block is copied.
const COPIED: Part = Part {
    lines: &[
        (Given::Resync, Outcome::Copied(3, 1)),
        (Given::Send, Outcome::Item(Command::RsDataReply, 1)),
        (Given::Receive, Outcome::Item(Command::RsDataReply, 1)),
        (Given::Peer(1), Outcome::Done),
        (Given::AckOut, Outcome::Went(Command::RsWriteAck)),
        (
            Given::AckIn,
            Outcome::More(What::Frame(Command::RsWriteAck, None), None, Some(1), false),
        ),
    ],
    after: Held {
        own: [7, 9, 1, 0],
        peer: [9, 0, 0, 0],
        marks: &[6],
        local_filled: [0, 0, 0, 0xAA, 0, 0, 0xBB, 0],
        peer_filled: [0, 0, 0, 0xAA, 0, 0, 0, 0],
    },
};

/// The second block is copied, which ends the resync at the primary.
const SYNCED: Part = Part {
    lines: &[
        (Given::Resync, Outcome::Copied(6, 3)),
        (Given::Send, Outcome::Item(Command::Barrier, 2)),
        (Given::Send, Outcome::Item(Command::RsDataReply, 3)),
        (Given::Receive, Outcome::Item(Command::Barrier, 2)),
        (Given::Receive, Outcome::Item(Command::RsDataReply, 3)),
        (Given::Peer(3), Outcome::Done),
        (Given::AckOut, Outcome::Went(Command::BarrierAck)),
        (Given::AckOut, Outcome::Went(Command::RsWriteAck)),
        (Given::AckIn, Outcome::Went(Command::BarrierAck)),
        (
            Given::AckIn,
            Outcome::More(What::Frame(Command::RsWriteAck, None), None, Some(2), true),
        ),
    ],
    after: Held {
        own: [7, 0, 9, 1],
        peer: [9, 0, 0, 0],
        marks: &[],
        local_filled: [0, 0, 0, 0xAA, 0, 0, 0xBB, 0],
        peer_filled: [0, 0, 0, 0xAA, 0, 0, 0xBB, 0],
    },
};

/// The marked blocks are copied, and the secondary adopts the primary's identifiers.
pub(crate) static RESYNC: [Part; 7] = [
    CONNECTED,
    PARTED,
    RESYNCING,
    TARGET_TOLD,
    COPIED,
    SYNCED,
    Part {
        lines: &[
            (Given::Send, Outcome::Item(Command::Barrier, 4)),
            (Given::Send, Outcome::Item(Command::Uuids, 5)),
            (Given::Receive, Outcome::Item(Command::Barrier, 4)),
            (Given::Receive, Outcome::Item(Command::Uuids, 5)),
        ],
        after: Held {
            own: [7, 0, 9, 1],
            peer: [7, 0, 9, 1],
            marks: &[],
            local_filled: [0, 0, 0, 0xAA, 0, 0, 0xBB, 0],
            peer_filled: [0, 0, 0, 0xAA, 0, 0, 0xBB, 0],
        },
    },
];

/// The connection is lost before the secondary receives the end of the resync, so the next one copies all blocks.
pub(crate) static UNHEARD_END: [Part; 8] = [
    CONNECTED,
    PARTED,
    RESYNCING,
    TARGET_TOLD,
    COPIED,
    SYNCED,
    Part {
        lines: &[
            (Given::ClosePrimary, Outcome::Closed(0)),
            (Given::CloseSecondary, Outcome::Done),
        ],
        after: Held {
            own: [11, 7, 9, 1],
            peer: [9, 0, 0, 0],
            marks: &[],
            local_filled: [0, 0, 0, 0xAA, 0, 0, 0xBB, 0],
            peer_filled: [0, 0, 0, 0xAA, 0, 0, 0xBB, 0],
        },
    },
    Part {
        lines: &hello!(13, 15, Decision::FullSync),
        after: Held {
            own: [11, 13, 7, 9],
            peer: [9, 0, 0, 0],
            marks: &[0, 1, 2, 3, 4, 5, 6, 7],
            local_filled: [0, 0, 0, 0xAA, 0, 0, 0xBB, 0],
            peer_filled: [0, 0, 0, 0xAA, 0, 0, 0xBB, 0],
        },
    },
];

/// A block is under way: it refuses a write that covers it, a write beside it is accepted, and the resync does not copy
/// the block of that write while it is open.
pub(crate) static BLOCK_UNDER_WAY: [Part; 4] = [
    CONNECTED,
    PARTED,
    RESYNCING,
    Part {
        lines: &[
            (Given::Resync, Outcome::Copied(3, 1)),
            (
                Given::Submit(2, 2, 0xCC),
                Outcome::Refused(Refusal::Conflict(0)),
            ),
            (Given::Submit(6, 1, 0xDD), Outcome::Accepted(3)),
            (Given::Send, Outcome::Item(Command::SyncUuid, 0)),
            (Given::Send, Outcome::Item(Command::RsDataReply, 1)),
            (Given::Send, Outcome::Item(Command::Data, 2)),
            (Given::Receive, Outcome::Item(Command::SyncUuid, 0)),
            (Given::Receive, Outcome::Item(Command::RsDataReply, 1)),
            (Given::Receive, Outcome::Item(Command::Data, 2)),
            (Given::Peer(1), Outcome::Done),
            (Given::AckOut, Outcome::Went(Command::RsWriteAck)),
            (
                Given::AckIn,
                Outcome::More(What::Frame(Command::RsWriteAck, None), None, Some(1), false),
            ),
            (Given::Resync, Outcome::Refused(Refusal::NothingToDo)),
        ],
        after: Held {
            own: [7, 9, 1, 0],
            peer: [9, 0, 0, 0],
            marks: &[6],
            local_filled: [0, 0, 0, 0xAA, 0, 0, 0xBB, 0],
            peer_filled: [0, 0, 0, 0xAA, 0, 0, 0, 0],
        },
    },
];

/// The resync passes over a marked block under an open write.
pub(crate) static BLOCK_PASSED_OVER: [Part; 4] = [
    CONNECTED,
    PARTED,
    RESYNCING,
    Part {
        lines: &[
            (Given::Submit(3, 1, 0xCC), Outcome::Accepted(3)),
            (Given::Resync, Outcome::Copied(6, 2)),
        ],
        after: Held {
            own: [7, 9, 1, 0],
            peer: [1, 0, 0, 0],
            marks: &[3, 6],
            local_filled: [0, 0, 0, 0xAA, 0, 0, 0xBB, 0],
            peer_filled: [0; BLOCKS],
        },
    },
];
