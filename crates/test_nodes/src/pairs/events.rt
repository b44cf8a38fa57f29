//! Events of a pair and the replies to them, for tables.
use crate::contents::filled;
use blocks::{Block, Command, Decision, Done, Refusal, Reply, What};
use pair::Event;
use std::alloc::{AllocError, Global};

/// An event of a pair. A byte names the contents of a write, since tables are constants.
#[derive(Clone, Copy, Debug, PartialEq, Eq)]
pub(crate) enum Given {
    /// The words for a resync and for a loss.
    Open(u64, u64),
    /// The first block, how many blocks, and the byte that fills them.
    Submit(u64, u8, u8),
    Local(u64),
    LocalFault(u64, u64),
    Send,
    Receive,
    Peer(u32),
    PeerFault(u32, u64),
    AckOut,
    AckIn,
    Resync,
    ResyncFault,
    ClosePrimary,
    CloseSecondary,
}

/// The reply to an event.
#[derive(Clone, Copy)]
pub(crate) enum Outcome {
    /// It was done, and the reply says nothing more.
    Done,
    /// A write was accepted under this number, and the reply says nothing more.
    Accepted(u64),
    /// A frame without a place went over the link, and the reply says nothing more.
    Went(Command),
    /// An item of the stream went over the link, with its place, and the reply says nothing more.
    Item(Command, u32),
    /// A block was read for the resync, and its item has this place.
    Copied(u64, u32),
    /// The peer's identifiers were taken, and this was decided.
    Decided(Decision),
    /// What the event was about, the write that it completed, the barrier that it appended, and whether a resync is
    /// over.
    More(What, Option<u64>, Option<u32>, bool),
    /// The primary closed its end, which completed this many writes.
    Closed(u32),
    Refused(Refusal),
}

/// An event, and the reply to it.
pub(crate) type Line = (Given, Outcome);

impl Given {
    /// Makes the event. Its contents are new, so memory may be refused.
    pub(crate) fn event(self, alloc: Global) -> Result<Event, AllocError> {
        Ok(match self {
            Given::Open(sync, loss) => Event::Open { sync, loss },
            Given::Submit(first, blocks, byte) => Event::Submit {
                first,
                contents: filled(alloc, blocks, byte)?,
            },
            Given::Local(number) => Event::Local(number),
            Given::LocalFault(number, kept) => Event::LocalFault(number, kept),
            Given::Send => Event::Send,
            Given::Receive => Event::Receive,
            Given::Peer(place) => Event::Peer(place),
            Given::PeerFault(place, kept) => Event::PeerFault(place, kept),
            Given::AckOut => Event::AckOut,
            Given::AckIn => Event::AckIn,
            Given::Resync => Event::Resync,
            Given::ResyncFault => Event::ResyncFault,
            Given::ClosePrimary => Event::ClosePrimary,
            Given::CloseSecondary => Event::CloseSecondary,
        })
    }
}

impl Outcome {
    /// Returns the reply.
    pub(crate) fn reply(self) -> Reply {
        match self {
            Outcome::Done => about(What::Nothing),
            Outcome::Accepted(number) => about(What::Write(number)),
            Outcome::Went(command) => about(What::Frame(command, None)),
            Outcome::Item(command, place) => about(What::Frame(command, Some(place))),
            Outcome::Copied(block, place) => about(What::Block(Block(block), place)),
            Outcome::Decided(decision) => about(What::Decided(decision)),
            Outcome::More(what, completed, barrier, synced) => Reply::Ok(Done {
                what,
                completed,
                barrier,
                synced,
            }),
            Outcome::Closed(completed) => Reply::Closed(completed),
            Outcome::Refused(refusal) => Reply::Refused(refusal),
        }
    }
}

fn about(what: What) -> Reply {
    Reply::Ok(Done::about(what))
}
