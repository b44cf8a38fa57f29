//! Promises that were broken.
use crate::event::Node;
use blocks::Refusal;
use std::alloc::{AllocError, AllocFailed};
use std::fmt;

/// A promise that was broken.
#[derive(Clone, Copy)]
pub(crate) enum Broken {
    /// The disks differ in a block, or may after a power cut, and the primary's metadata does not have it.
    Unknown { block: u64 },
    /// The disks differ in a block, or may after a power cut, and the identifiers that are saved say that they agree.
    Unturned { block: u64 },
    /// A disk has something in a block that no write put there.
    Strange { node: Node, block: u64 },
    /// A disk lacks a write that was completed.
    Lacks { node: Node, block: u64, write: u64 },
    /// The platter of a disk lacks a write that was flushed.
    Unflushed { node: Node, block: u64, write: u64 },
    /// A read gave something else than the disk has.
    Misread { block: u64 },
    /// The secondary says that it is consistent, and lacks a write that was completed before one that it has was submitted.
    Unordered { block: u64, write: u64, newer: u64 },
    /// A node refused something for a reason that it cannot have.
    Refused(Refusal),
    /// The disks do not become alike.
    Unlike { block: u64 },
    /// The nodes do not come to rest.
    Restless,
    /// Both nodes had ended as they were told to, and the next start copies blocks.
    Remembered { blocks: u64 },
}

/// Why a simulation ends early.
#[derive(Clone, Copy)]
pub(crate) enum Stopped {
    NoMemory,
    Broken(Broken),
}

impl From<AllocError> for Stopped {
    fn from(_: AllocError) -> Stopped {
        Stopped::NoMemory
    }
}

impl<T: Drop> From<AllocFailed<T>> for Stopped {
    fn from(_: AllocFailed<T>) -> Stopped {
        Stopped::NoMemory
    }
}

impl From<Broken> for Stopped {
    fn from(broken: Broken) -> Stopped {
        Stopped::Broken(broken)
    }
}

impl fmt::Display for Broken {
    fn fmt<W: fmt::Write>(&self, f: &mut fmt::Formatter<W>) -> fmt::Result {
        match *self {
            Broken::Unknown { block } => write!(
                f,
                "the disks may differ in block {block}, which the primary's metadata does not have"
            ),
            Broken::Unturned { block } => {
                write!(
                    f,
                    "the disks may differ in block {block}, and the identifiers that are saved say that they agree"
                )
            }
            Broken::Strange { node, block } => write!(
                f,
                "the disk of {node:?} has in block {block} what no write put there"
            ),
            Broken::Lacks { node, block, write } => {
                write!(
                    f,
                    "the disk of {node:?} lacks in block {block} the write {write}, which was completed"
                )
            }
            Broken::Unflushed { node, block, write } => {
                write!(
                    f,
                    "the platter of {node:?} lacks in block {block} the write {write}, which was flushed"
                )
            }
            Broken::Misread { block } => write!(
                f,
                "a read of block {block} gave something else than the disk has"
            ),
            Broken::Unordered {
                block,
                write,
                newer,
            } => {
                write!(
                    f,
                    "the consistent secondary has the write {newer}, and lacks in block {block} the write {write}, which was completed before"
                )
            }
            Broken::Refused(refusal) => write!(f, "a node refused: {refusal}"),
            Broken::Unlike { block } => write!(f, "the disks do not become alike in block {block}"),
            Broken::Restless => f.write_str("the nodes do not come to rest"),
            Broken::Remembered { blocks } => write!(
                f,
                "a start after an end copies {blocks} blocks"
            ),
        }
    }
}

impl fmt::Display for Stopped {
    fn fmt<W: fmt::Write>(&self, f: &mut fmt::Formatter<W>) -> fmt::Result {
        match self {
            Stopped::NoMemory => f.write_str("out of memory"),
            Stopped::Broken(broken) => write!(f, "{broken}"),
        }
    }
}
