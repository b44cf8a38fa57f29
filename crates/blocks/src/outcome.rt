//! The outcome of a step of a node or of a pair.
ghost use Rattle.std.specs.Prelude.{◌≡◌, Option, None, false};

use crate::{Block, Command, Refusal};
use std::fmt;

/// The primary's decision from the two tuples of identifiers, once it has the peer's (this project's rule, after the
/// DRBD User's Guide, "Generation identifiers").
#[derive(Clone, Copy, Debug, PartialEq, Eq)]
pub enum Decision {
    /// The disks agree.
    NoSync,
    /// The marked blocks are copied.
    BitmapSync,
    /// Every block is copied.
    FullSync,
}

impl fmt::Display for Decision {
    fn fmt<W: fmt::Write>(&self, f: &mut fmt::Formatter<W>) -> fmt::Result {
        f.write_str(match self {
            Decision::NoSync => "NoSync",
            Decision::BitmapSync => "BitmapSync",
            Decision::FullSync => "FullSync",
        })
    }
}

/// The subject of a step.
#[derive(Clone, Copy, Debug, PartialEq, Eq)]
pub enum What {
    /// Nothing that has a name.
    Nothing,
    /// A write was accepted under this number.
    Write(u64),
    /// A block was read for a resync, and its item has this place in the stream.
    Block(Block, u32),
    /// The peer's identifiers were taken, and this was decided.
    Decided(Decision),
    /// A frame went over the link; it has a place if it is an item of the stream.
    Frame(Command, Option<u32>),
}

/// The report of a step that was done.
#[derive(Clone, Copy, Debug, PartialEq, Eq)]
pub struct Done {
    /// Its subject.
    pub what: What,
    /// The number of the write that it completed.
    pub completed: Option<u64>,
    /// The number of the barrier that it appended to the stream.
    pub barrier: Option<u32>,
    /// Whether it ended a resync.
    pub synced: bool,
}

impl Done {
    /// Returns the report of a step that did nothing beyond its subject.
    pub fn about(what: What) -> Done
        ensures { result ≡ record { what = what; completed = None; barrier = None; synced = false } }
    {
        Done {
            what,
            completed: None,
            barrier: None,
            synced: false,
        }
    }
}

/// The reply to an event.
#[derive(Clone, Copy, Debug, PartialEq, Eq)]
pub enum Reply {
    /// The step was done.
    Ok(Done),
    /// The primary closed its end, and that completed this number of writes.
    Closed(u32),
    /// The step was refused.
    Refused(Refusal),
}
