//! How far a secondary has come.
ghost use Rattle.std.specs.Prelude.{◌≡◌, ◌&&◌, Bool, not};
ghost use Rattle.model.specs.Secondary.{SecondaryHistory};
ghost use Rattle.node_lines.specs.Progress.{SecondaryShows, doubted_line, has_taken, may_reopen};
ghost use Rattle.secondary.specs.State.{node};
ghost use Rattle.secondary_protocol.specs.Node.{NodeHas};
ghost use Rattle.status_lines.specs.Lines.{secondary_line_of};

use crate::{ConnectionItems, secondary_line};
use blocks::Store;
use link::{FrameIn, FrameOut};
use secondary::Secondary;
use status_lines::{DiskState, SecondaryLine, Words};

/// What a session asks of its secondary: its status line, and how far it has come.
#[derive(Clone, Copy, Debug)]
pub struct SecondaryProgress {
    pub line: SecondaryLine,
    /// Whether its end is open.
    pub is_open: bool,
    /// What was taken on the last connection.
    pub taken: ConnectionItems,
    /// How many items of the last connection the disk has done. It starts anew with a connection.
    pub applied: u32,
    /// Whether the disk has an item to do.
    pub has_unfinished: bool,
    /// Whether a call of its metadata's file has failed.
    pub is_metadata_broken: bool,
}

impl SecondaryProgress {
    /// Returns how far a secondary has come. Its keeper knows whether the disk is doubted, and whether its metadata is broken. The line
    /// of a doubted disk says that its data may not be used, whatever the node itself knows (this project's rule).
    pub fn of<O: FrameOut + Drop, I: FrameIn + Drop, S: Store + Drop>(
        secondary: &Secondary<O, I, S>,
        is_doubted: bool,
        is_metadata_broken: bool,
    ) -> SecondaryProgress
        ensures shows { (h : SecondaryHistory) → NodeHas (node secondary.now) h → SecondaryShows is_doubted result h }
        ensures metadata { result.is_metadata_broken ≡ is_metadata_broken }
    {
        SecondaryProgress {
            line: with_doubt(is_doubted, secondary_line(secondary)),
            is_open: secondary.is_open(),
            taken: ConnectionItems {
                connection: secondary.connection_number(),
                items: secondary.items_taken(),
            },
            applied: secondary.items_applied(),
            has_unfinished: !secondary.is_drained(),
            is_metadata_broken,
        }
    }

    /// Returns whether nothing of what a primary has sent is on its way: the end has taken as many items on the same connection, or it
    /// is closed.
    pub fn has_taken(&self, sent: ConnectionItems) -> bool
        ensures { (is_doubted : Bool) (h : SecondaryHistory) → SecondaryShows is_doubted self.now h → result ≡ has_taken sent h }
    {
        !self.is_open
            || (self.taken.connection == sent.connection && self.taken.items >= sent.items)
    }

    /// Returns whether the end may open again: it is closed, the disk has done all items, and the metadata is not broken.
    pub fn may_reopen(&self) -> bool
        ensures { (is_doubted : Bool) (h : SecondaryHistory) → SecondaryShows is_doubted self.now h → result ≡ (may_reopen h && not self.now.is_metadata_broken) }
    {
        !self.is_open && !self.has_unfinished && !self.is_metadata_broken
    }
}

// Returns the line of a secondary whose disk may be doubted.
fn with_doubt(is_doubted: bool, line: SecondaryLine) -> SecondaryLine
    ensures { secondary_line_of result ≡ doubted_line is_doubted (secondary_line_of line) }
{
    if !is_doubted {
        return line;
    }
    SecondaryLine {
        words: Words {
            own_disk: DiskState::Inconsistent,
            ..line.words
        },
        usable: false,
        ..line
    }
}
