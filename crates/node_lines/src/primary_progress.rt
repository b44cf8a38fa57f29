//! How far a primary has come.
ghost use Rattle.std.specs.Prelude.{◌≡◌};
ghost use Rattle.model.specs.Primary.{PrimaryHistory};
ghost use Rattle.node_lines.specs.Progress.{PrimaryShows, is_quiet, released_to, sent_items};
ghost use Rattle.primary.specs.State.{node};
ghost use Rattle.primary_protocol.specs.Node.{NodeHas};

use crate::{ConnectionItems, primary_line};
use blocks::Store;
use link::{FrameIn, FrameOut};
use primary::Primary;
use status_lines::PrimaryLine;

/// What a session asks of its primary: its status line, and how far it has come.
#[derive(Clone, Copy, Debug)]
pub struct PrimaryProgress {
    pub line: PrimaryLine,
    /// How many writes were accepted, which is the number of the last one.
    pub accepted: u64,
    /// The number up to which each write is released: the local disk has done it or failed it, and the peer's disk has its whole
    /// epoch, unless the write has no connection.
    pub released: u64,
    /// How many blocks are marked.
    pub marks: u32,
    /// What was sent on the last connection.
    pub sent: ConnectionItems,
    /// Whether it has nothing more to do for the link: its end is closed, or its connection is established, no block is marked, every
    /// epoch is acknowledged, and no item waits to be sent.
    pub is_quiet: bool,
    /// Whether the disk has a write to do.
    pub has_unfinished: bool,
    /// Whether a call of its metadata's file has failed.
    pub is_metadata_broken: bool,
}

impl PrimaryProgress {
    /// Returns how far a primary has come. Whether its metadata is broken is known to its keeper.
    pub fn of<O: FrameOut + Drop, I: FrameIn + Drop, S: Store + Drop>(
        primary: &Primary<O, I, S>,
        is_metadata_broken: bool,
    ) -> PrimaryProgress
        ensures shows { (h : PrimaryHistory) → NodeHas (node primary.now) h → PrimaryShows result h }
        ensures metadata { result.is_metadata_broken ≡ is_metadata_broken }
    {
        PrimaryProgress {
            line: primary_line(primary),
            accepted: primary.accepted(),
            released: released_to(primary),
            marks: primary.marks(),
            sent: sent_items(primary),
            is_quiet: is_quiet(primary),
            has_unfinished: primary.next_local().is_some(),
            is_metadata_broken,
        }
    }
}

// Returns the number up to which each write is released.
fn released_to<O: FrameOut + Drop, I: FrameIn + Drop, S: Store + Drop>(
    primary: &Primary<O, I, S>,
) -> u64
    ensures { (h : PrimaryHistory) → NodeHas (node primary.now) h → result ≡ released_to h }
{
    match primary.first_unreleased() {
        Some(first) => first.saturating_sub(1),
        None => primary.accepted(),
    }
}

// Returns what was sent on the last connection.
fn sent_items<O: FrameOut + Drop, I: FrameIn + Drop, S: Store + Drop>(
    primary: &Primary<O, I, S>,
) -> ConnectionItems
    ensures { (h : PrimaryHistory) → NodeHas (node primary.now) h → result ≡ sent_items h }
{
    ConnectionItems {
        connection: primary.connection_number(),
        items: primary.items_sent(),
    }
}

// Returns whether the primary has nothing more to do for the link.
fn is_quiet<O: FrameOut + Drop, I: FrameIn + Drop, S: Store + Drop>(
    primary: &Primary<O, I, S>,
) -> bool
    ensures { (h : PrimaryHistory) → NodeHas (node primary.now) h → result ≡ is_quiet h }
{
    !primary.is_open()
        || (primary.is_established()
            && primary.marks() == 0
            && primary.open_epochs() == 0
            && primary.unsent() == 0)
}
