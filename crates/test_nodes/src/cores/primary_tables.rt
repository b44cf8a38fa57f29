//! Calls of a primary's core, for the rows of tables.
use crate::tuples::OWN;
use blocks::{Command, Decision, Protocol, Refusal, Settings, Tuple, What};

/// A frame, or the fault that replaces it.
#[derive(Clone, Copy)]
pub(crate) enum Frame {
    Protocol(Protocol),
    Sizes(u64),
    Uuids(Tuple),
    /// A write of one block: the block, the number, the place, and the byte that fills it.
    Data(u64, u64, u32, u8),
    /// A write of two blocks.
    TwoBlocks(u64, u64, u32, u8),
    /// A block of a resync, its place, and the byte that fills it.
    RsDataReply(u64, u32, u8),
    Barrier(u32),
    SyncUuid(u64),
    /// Of one block: the block, the number, the place.
    RecvAck(u64, u64, u32),
    WriteAck(u64, u64, u32),
    /// The same of two blocks.
    WideAck(u64, u64, u32),
    /// Of one block and its place.
    RsWriteAck(u64, u32),
    /// The number of the barrier, and its epoch's size.
    BarrierAck(u32, u32),
    Fault(Refusal),
}

/// A call of a core.
#[derive(Clone, Copy)]
pub(crate) enum Step {
    /// The words for a resync and for a loss.
    Open(u64, u64),
    Close,
    /// The first block, how many blocks, and the byte that fills them.
    Submit(u64, u8, u8),
    /// A write of fewer bytes than a block has.
    SubmitPart,
    /// Asks which write the local disk does next.
    Next,
    /// Gives the write of this number to the local disk: it has this many blocks, filled with this byte.
    Given(u64, u8, u8),
    Local(u64),
    LocalFail(u64),
    /// This frame is due, and is sent.
    Send(Frame),
    Take(Frame),
    /// Reads the next block of a resync, filled with this byte.
    Resync(u8),
    Receipt(u64),
}

/// What a step returns.
#[derive(Clone, Copy, Debug, PartialEq, Eq)]
pub(crate) enum Outcome {
    Nothing,
    /// How many writes the close completed.
    Closed(u32),
    Next(Option<u64>),
    /// The number of a write, its first block, its block count, and whether its bytes are the expected ones.
    Given(u64, u64, u64, bool),
    /// A write was accepted under this number, and the step returns nothing more.
    Accepted(u64),
    /// A frame went over the link, with its place if it is an item of the stream, and the step returns nothing more.
    Went(Command, Option<u32>),
    /// What else the step was about, and nothing more.
    Did(What),
    /// What the step was about, the write that it completed, the barrier that it appended, and whether a resync is
    /// over.
    More(What, Option<u64>, Option<u32>, bool),
    /// Another packet was due.
    Other(Command),
    /// The first block of a completed write, its block count, whether the peer answered it, and its connection and its
    /// place there.
    Receipt(u64, u64, bool, Option<(u32, u32)>),
}

/// What a step returns, or why it is refused.
pub(crate) type Answer = Result<Outcome, Refusal>;

/// A step and what it returns.
pub(crate) type Row = (Step, Answer);

/// What a core holds.
#[derive(Clone, Copy)]
pub(crate) enum Fact {
    Open(bool),
    /// Whether the hello is done.
    Established(bool),
    Resync(bool),
    Tuple(Tuple),
    Peer(Option<Tuple>),
    Connections(u32),
    Accepted(u64),
    OpenWrites(u32),
    Unanswered(u32),
    OpenEpochs(u64),
    FirstUnreleased(Option<u64>),
    Places(u32),
    Unsent(usize),
}

/// A part of what a primary goes through.
#[derive(Clone, Copy)]
pub(crate) enum Part {
    Rows(&'static [Row]),
    /// The hello of a connection: the words, both disks' identifiers, and what is decided.
    Greeting((u64, u64), (Tuple, Tuple), Decision),
    /// The primary takes the peer's identifiers, and decides this.
    Decides(Tuple, Result<Decision, Refusal>),
    /// This frame is refused.
    Refused(Frame, Refusal),
    Holds(&'static [Fact]),
    /// These blocks are marked, and no others.
    Marks(&'static [usize]),
}

/// What a primary is made of.
#[derive(Clone, Copy)]
pub(crate) struct Start {
    pub(crate) settings: Settings,
    pub(crate) own: Tuple,
    /// The blocks that are marked.
    pub(crate) marked: &'static [usize],
}

/// The settings of the worked rows, under protocol C.
pub(crate) const SETTINGS: Settings = Settings::STANDARD;

/// A primary of the worked rows.
pub(crate) const START: Start = Start {
    settings: SETTINGS,
    own: OWN,
    marked: &[],
};

/// A primary whose epochs have one write each.
pub(crate) const OF_ONE: Start = Start {
    settings: Settings {
        max_epoch: 1,
        ..SETTINGS
    },
    ..START
};

/// The step was done, and has nothing to report.
pub(crate) const DONE: Answer = Ok(Outcome::Did(What::Nothing));

pub(crate) const PROTOCOL_WENT: Answer = Ok(Outcome::Went(Command::Protocol, None));

pub(crate) const SIZES_WENT: Answer = Ok(Outcome::Went(Command::Sizes, None));

pub(crate) const UUIDS_WENT: Answer = Ok(Outcome::Went(Command::Uuids, None));

/// The first connection, whose words are 5 and 7.
pub(crate) const CONNECTED: Part = Part::Greeting((5, 7), (OWN, OWN), Decision::NoSync);

/// Write 1 of block 2 is accepted.
pub(crate) const ACCEPTED: Row = (Step::Submit(2, 1, 0xAA), Ok(Outcome::Accepted(1)));

/// It is sent, at place 0.
pub(crate) const SENT: Row = (
    Step::Send(Frame::Data(2, 1, 0, 0xAA)),
    Ok(Outcome::Went(Command::Data, Some(0))),
);

/// An acknowledgement completes write 1, and ends its epoch.
pub(crate) const COMPLETES_1: Answer = Ok(Outcome::More(
    What::Frame(Command::WriteAck, None),
    Some(1),
    Some(1),
    false,
));

/// Both disks have it, which completes it and ends its epoch.
pub(crate) const ANSWERED: Row = (Step::Take(Frame::WriteAck(2, 1, 0)), COMPLETES_1);

/// The barrier after it is sent.
pub(crate) const BARRIER: Row = (
    Step::Send(Frame::Barrier(1)),
    Ok(Outcome::Went(Command::Barrier, Some(1))),
);

/// The peer acknowledges the epoch, which has one write.
pub(crate) const RELEASED: Row = (
    Step::Take(Frame::BarrierAck(1, 1)),
    Ok(Outcome::Went(Command::BarrierAck, None)),
);
