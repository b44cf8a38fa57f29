//! The refusals, each with its number.
ghost use Rattle.std.specs.Prelude.{◌≡◌};
ghost use Rattle.blocks.specs.Numbered.{number_of, is_busy, closes_end};

use std::alloc::{AllocError, AllocFailed};
use thiserror::Error;

/// The reason why a call did nothing, or why an end of a link closed (this project's table).
#[derive(Clone, Copy, Debug, PartialEq, Eq, Error)]
pub enum Refusal {
    #[error("not 1 to 32 whole blocks inside the device and one extent, or a fault that keeps too many blocks")]
    BadRange,
    #[error("overlaps write {0}, which is not completed (0: the block that the resync has under way)")]
    Conflict(u64),
    #[error("the transfer log is full of unreleased writes")]
    LogFull,
    #[error("every active extent has an unreleased write")]
    ActivityFull,
    #[error("the session has accepted as many writes as it can")]
    JournalFull,
    #[error("the connection's stream has as many items as it can")]
    StreamFull,
    #[error("out of memory")]
    NoMemory,
    #[error("the write failed on the local disk")]
    LocalFault,
    #[error("the write is not completed yet")]
    NotCompleted,
    #[error("there is no block to copy now")]
    NothingToDo,
    #[error("the link is full")]
    LinkFull,
    #[error("this end is closed, or the stream has not begun and no write may go without a connection")]
    NotConnected,
    #[error("there is nothing to send, to take or to hand out")]
    NothingThere,
    #[error("the disk failed to read a block")]
    ReadFault,
    #[error("a setting is out of its range, a disk or mark list has another size, or the current identifier is zero")]
    BadSetting,
    #[error("there is no such unfinished write or item")]
    UnknownJob,
    #[error("an earlier epoch is not applied yet")]
    EpochOpen,
    #[error("as many items as may be are waiting for the disk")]
    PendingFull,
    #[error("the receipt is of no completed write here, or is given twice")]
    StrangeReceipt,
    #[error("the frame does not begin with the magic number")]
    BadMagic,
    #[error("the frame's command does not belong here")]
    BadCommand,
    #[error("the frame has another length than its command wants")]
    BadLength,
    #[error("a field of the frame has a value that it may not have")]
    BadField,
    #[error("the peer acknowledged a barrier out of turn")]
    BadBarrierAck,
    #[error("the peer acknowledged what was not sent, or twice")]
    UnknownAck,
    #[error("the peer's data are newer than the primary's")]
    PrimaryStale,
    #[error("both nodes have changed their data since they parted")]
    SplitBrain,
    #[error("the two nodes' data have nothing in common")]
    Unrelated,
    #[error("a generation identifier is zero, stands twice, or has been used before")]
    UsedIdentifier,
    #[error("the peer uses another replication protocol")]
    OtherProtocol,
    #[error("the peer's disk is of another size")]
    OtherSize,
    #[error("an end is still open, or items are left to apply")]
    NotDrained,
}

impl Refusal {
    /// Returns the refusal's number, by which a script names it.
    pub fn number(&self) -> u8
        ensures { result ≡ number_of self.now }
    {
        match self {
            Refusal::BadRange => 1,
            Refusal::Conflict(_) => 2,
            Refusal::LogFull => 3,
            Refusal::ActivityFull => 4,
            Refusal::JournalFull => 5,
            Refusal::StreamFull => 6,
            Refusal::NoMemory => 7,
            Refusal::LocalFault => 8,
            Refusal::NotCompleted => 9,
            Refusal::NothingToDo => 10,
            Refusal::LinkFull => 11,
            Refusal::NotConnected => 12,
            Refusal::NothingThere => 13,
            Refusal::ReadFault => 14,
            Refusal::BadSetting => 15,
            Refusal::UnknownJob => 16,
            Refusal::EpochOpen => 17,
            Refusal::PendingFull => 18,
            Refusal::StrangeReceipt => 19,
            Refusal::BadMagic => 20,
            Refusal::BadCommand => 21,
            Refusal::BadLength => 22,
            Refusal::BadField => 23,
            Refusal::BadBarrierAck => 24,
            Refusal::UnknownAck => 25,
            Refusal::PrimaryStale => 30,
            Refusal::SplitBrain => 31,
            Refusal::Unrelated => 32,
            Refusal::UsedIdentifier => 33,
            Refusal::OtherProtocol => 34,
            Refusal::OtherSize => 35,
            Refusal::NotDrained => 36,
        }
    }

    /// Returns whether the same call may succeed later, as the pair goes on: it waits for a write, the link, the disk
    /// or the peer.
    pub fn is_busy(&self) -> bool
        ensures { result ≡ is_busy self.now }
    {
        matches!(
            self,
            Refusal::Conflict(_)
                | Refusal::LogFull
                | Refusal::ActivityFull
                | Refusal::NotCompleted
                | Refusal::NothingToDo
                | Refusal::LinkFull
                | Refusal::NothingThere
                | Refusal::EpochOpen
                | Refusal::PendingFull
        )
    }

    /// Returns whether the refused frame closes the end that took it: the frame has a fault, the peer could not have
    /// sent it, or its hello does not fit.
    pub fn closes_end(&self) -> bool
        ensures { result ≡ closes_end self.now }
    {
        matches!(
            self,
            Refusal::BadMagic
                | Refusal::BadCommand
                | Refusal::BadLength
                | Refusal::BadField
                | Refusal::BadBarrierAck
                | Refusal::UnknownAck
                | Refusal::PrimaryStale
                | Refusal::SplitBrain
                | Refusal::Unrelated
                | Refusal::UsedIdentifier
                | Refusal::OtherProtocol
                | Refusal::OtherSize
        )
    }
}

impl From<AllocError> for Refusal {
    ghost use Rattle.blocks.specs.declared.refusal.Refusal.TheVariants.{NoMemory};

    ghost from_gives = { λ _ e. e ≡ NoMemory };

    fn from(_: AllocError) -> Refusal {
        Refusal::NoMemory
    }
}

impl<T: Drop> From<AllocFailed<T>> for Refusal {
    ghost use Rattle.blocks.specs.declared.refusal.Refusal.TheVariants.{NoMemory};

    ghost from_gives = { λ _ e. e ≡ NoMemory };

    fn from(_: AllocFailed<T>) -> Refusal {
        Refusal::NoMemory
    }
}
