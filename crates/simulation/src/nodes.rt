//! The nodes, as the simulation sees them.
//!
//! A world knows its nodes by these traits alone, so that what it does with them proves nothing of what they hold.
use crate::event::Step;
use crate::machine::NodeFile;
use crate::world::World;
use bitmap::Bitmap;
use blocks::{ConnectionWords, Done, Refusal, Tuple};
use bytes::Bytes;
use metadata::Metadata;
use std::alloc::Global;

/// How a primary stands.
#[derive(Clone, Copy)]
pub(crate) struct PrimaryState {
    pub(crate) is_open: bool,
    pub(crate) is_established: bool,
    /// Whether a call of its metadata file has failed.
    pub(crate) is_broken: bool,
    /// The number of its last connection.
    pub(crate) connection: u32,
    /// The number up to which each of its writes is released.
    pub(crate) released: u64,
    /// How many blocks are marked.
    pub(crate) marks: u64,
}

/// What a primary leaves for the next session: its metadata and its marks in memory, `None` if there was no memory to copy them.
#[derive(Drop)]
pub(crate) struct Left {
    pub(crate) metadata: Metadata<NodeFile>,
    pub(crate) marks: Option<Bitmap>,
}

/// A primary that runs.
pub(crate) trait PrimaryNode: Drop {
    /// Opens a primary over the local disk of a world, and over its link; `None` if that cannot be.
    fn open(
        world: &World,
        identifiers: Tuple,
        marks: Bitmap,
        words: ConnectionWords,
        metadata: Metadata<NodeFile>,
    ) -> Option<Self>;

    /// Has it accept a write. Returns whether it did.
    fn submit(&mut self, first: u64, bytes: &Bytes) -> bool;

    /// Returns what it reads, if it can.
    fn read(&mut self, first: u64, count: u64) -> Option<Vec<u8>>;

    /// Has it do one of a primary's steps.
    fn step(&mut self, step: Step) -> Result<Done, Refusal>;

    /// Returns whether the peer confirmed a write of this number, once it is completed.
    fn take_completed(&mut self, number: u64) -> Result<bool, Refusal>;

    /// Closes its end, if it is open.
    fn close(&mut self);

    /// Opens its end again. Returns the number of the connection, if it did.
    fn reopen(&mut self, words: ConnectionWords) -> Option<u32>;

    /// Prepares up to `most` extents to leave. Returns how many it did.
    fn prepare_leaving(&mut self, most: u64) -> u64;

    /// Has the extents that are prepared leave. Returns how many did.
    fn leave_prepared(&mut self) -> u64;

    /// Returns how it stands.
    fn state(&self) -> PrimaryState;

    /// Ends it. Returns what it leaves; `None` if its metadata is broken.
    fn into_left(self, alloc: Global) -> Option<Left>;
}

/// A secondary that runs.
pub(crate) trait SecondaryNode: Drop {
    /// Opens a secondary over the peer's disk of a world, and over its link; `None` if that cannot be.
    fn open(
        world: &World,
        identifiers: Tuple,
        is_doubted: bool,
        metadata: Metadata<NodeFile>,
    ) -> Option<Self>;

    /// Has it do one of a secondary's steps.
    fn step(&mut self, step: Step) -> Result<Done, Refusal>;

    /// Closes its end, if it is open.
    fn close(&mut self);

    /// Returns whether its end may be opened again.
    fn may_reopen(&self) -> bool;

    /// Opens its end again, as a connection of this number. Returns whether it did.
    fn reopen(&mut self, number: u32) -> bool;

    /// Returns whether its end is open.
    fn is_open(&self) -> bool;

    /// Ends it. Returns its metadata; `None` if that is broken.
    fn into_left(self) -> Option<Metadata<NodeFile>>;
}
