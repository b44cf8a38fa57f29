//! The line of each node.
ghost use Rattle.std.specs.Prelude.{◌≡◌};
ghost use Rattle.model.specs.Primary.{PrimaryHistory};
ghost use Rattle.model.specs.Secondary.{SecondaryHistory};
ghost use Rattle.model.specs.Status.{primary_line, secondary_line};
ghost use Rattle.primary.specs.State as here;
ghost use Rattle.primary_protocol.specs.Node as local;
ghost use Rattle.secondary.specs.State as there;
ghost use Rattle.secondary_protocol.specs.Node as peer;
ghost use Rattle.node_lines.specs.StatusWords.{primary_words_by, secondary_words_by};
ghost use Rattle.status_lines.specs.Lines.{primary_line_of, secondary_line_of};
ghost use Rattle.status_lines.specs.Words.{words_of};

use blocks::Store;
use link::{FrameIn, FrameOut};
use primary::Primary;
use secondary::Secondary;
use status_lines::{DiskState, LinkState, PrimaryLine, Role, SecondaryLine, Words};

/// KiB in a block.
const BLOCK_KIB: u64 = 4;

/// Returns what the primary's line shows: the words by its end, its connection and its resync, and the numbers by its log and its
/// bitmap.
pub fn primary_line<O: FrameOut + Drop, I: FrameIn + Drop, S: Store + Drop>(
    primary: &Primary<O, I, S>,
) -> PrimaryLine
    ensures { (h : PrimaryHistory) → local.NodeHas (here.node primary.now) h → primary_line_of result ≡ primary_line h }
{
    PrimaryLine {
        words: primary_words(
            primary.is_open(),
            primary.is_established(),
            primary.is_resync(),
        ),
        protocol: primary.settings().protocol,
        pe: u64::from(primary.unanswered()),
        ap: u64::from(primary.incomplete()),
        ep: primary.open_epochs(),
        oos: BLOCK_KIB * u64::from(primary.marks()),
    }
}

/// Returns what the secondary's line shows: the words by its end, its hello and its data, and how many items its disk has to do.
pub fn secondary_line<O: FrameOut + Drop, I: FrameIn + Drop, S: Store + Drop>(
    secondary: &Secondary<O, I, S>,
) -> SecondaryLine
    ensures { (h : SecondaryHistory) → peer.NodeHas (there.node secondary.now) h → secondary_line_of result ≡ secondary_line h }
{
    let usage = secondary.usage();
    SecondaryLine {
        words: secondary_words(
            secondary.is_open(),
            secondary.is_hello_done(),
            usage.consistent,
        ),
        protocol: secondary.settings().protocol,
        pending: u64::from(usage.pending),
        usable: usage.consistent,
        whole: u64::from(usage.whole),
    }
}

// Returns the primary's words, by whether its end is open, its connection is established, and a resync runs.
fn primary_words(is_open: bool, is_established: bool, is_resync: bool) -> Words
    ensures { words_of result ≡ primary_words_by is_open is_established is_resync }
{
    let (link, other_role, other_disk) = if !is_open {
        (LinkState::StandAlone, Role::Unknown, DiskState::DUnknown)
    } else if !is_established {
        (
            LinkState::WFReportParams,
            Role::Unknown,
            DiskState::DUnknown,
        )
    } else if is_resync {
        (
            LinkState::SyncSource,
            Role::Secondary,
            DiskState::Inconsistent,
        )
    } else {
        (LinkState::Connected, Role::Secondary, DiskState::UpToDate)
    };
    Words {
        link,
        own_role: Role::Primary,
        other_role,
        own_disk: DiskState::UpToDate,
        other_disk,
    }
}

// Returns the secondary's words, by whether its end is open, its hello is done, and its data are consistent.
fn secondary_words(is_open: bool, is_hello_done: bool, consistent: bool) -> Words
    ensures { words_of result ≡ secondary_words_by is_open is_hello_done consistent }
{
    let own_role = Role::Secondary;
    if !is_hello_done {
        let link = if is_open {
            LinkState::WFReportParams
        } else {
            LinkState::StandAlone
        };
        let own_disk = if consistent {
            DiskState::Consistent
        } else {
            DiskState::Inconsistent
        };
        return Words {
            link,
            own_role,
            other_role: Role::Unknown,
            own_disk,
            other_disk: DiskState::DUnknown,
        };
    }
    let (link, own_disk) = if consistent {
        (LinkState::Connected, DiskState::UpToDate)
    } else {
        (LinkState::SyncTarget, DiskState::Inconsistent)
    };
    Words {
        link,
        own_role,
        other_role: Role::Primary,
        own_disk,
        other_disk: DiskState::UpToDate,
    }
}
