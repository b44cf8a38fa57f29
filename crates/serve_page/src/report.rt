//! The report of a server on its nodes.
ghost use Rattle.std.specs.Prelude.{◌≡◌, ◌-◌, ◌*◌, ◌/◌, None, Some};
ghost use Rattle.serve_page.specs.Metrics as metrics;

use crate::latencies::Latencies;
use crate::start::ServerStart;
use node_lines::{PrimaryProgress, SecondaryProgress};
use std::alloc::{AllocError, Global};
use std::fmt;

/// KiB in a block.
pub(crate) const BLOCK_KIB: u64 = 4;

/// Bytes in a block.
pub(crate) const BLOCK_BYTES: u64 = 4096;

/// The line of a peer's disk that is left out.
const PEER_FAILED: &str =
    "a sync of the peer's image failed: the link stays down until the server ends\n";

/// A resync that goes on.
#[derive(Clone, Copy, Debug, PartialEq, Eq)]
pub struct Resync {
    /// Blocks that are marked.
    pub left: u32,
    /// The most blocks that were marked since none was.
    pub all: u32,
    /// Blocks that were copied in the last seconds.
    pub copied: u32,
    /// How long these were, in milliseconds: those since the link came up, at first, and then some ten seconds.
    pub elapsed_ms: u64,
}

impl Resync {
    /// Returns how much of it is done, in hundredths, rounded down.
    pub fn percent(self) -> u64 {
        let done = u64::from(self.all.saturating_sub(self.left));
        (100 * done).checked_div(u64::from(self.all)).unwrap_or(100)
    }

    /// Returns how many KiB are left.
    pub fn left_kib(self) -> u64
        ensures { result ≡ 4 * self.left }
    {
        BLOCK_KIB * u64::from(self.left)
    }

    /// Returns how many KiB were copied in a second of the last ones, rounded down, or `None` in the first millisecond.
    pub fn kib_per_second(self) -> Option<u64>
        ensures { self.elapsed_ms ≡ 0 → result ≡ None }
    {
        (1000 * BLOCK_KIB * u64::from(self.copied)).checked_div(self.elapsed_ms)
    }

    /// Returns how many bytes were copied in a second of the last ones, rounded down, or `None` in the first millisecond.
    pub fn bytes_per_second(self) -> Option<u64>
        ensures { result ≡ metrics.bytes_per_second self }
    {
        (1000 * BLOCK_BYTES * u64::from(self.copied)).checked_div(self.elapsed_ms)
    }

    /// Returns in how many seconds it is done at that rate, rounded up, or `None` if nothing was copied in these seconds.
    pub fn seconds_left(self) -> Option<u64>
        ensures none { self.copied ≡ 0 → result ≡ None }
        ensures value { result ≡ metrics.seconds_left self }
    {
        if self.copied == 0 {
            return None;
        }
        let milliseconds = self.elapsed_ms.saturating_mul(u64::from(self.left))
            / u64::from(self.copied);
        Some(milliseconds.div_ceil(1000))
    }
}

impl fmt::Display for Resync {
    fn fmt<W: fmt::Write>(&self, f: &mut fmt::Formatter<W>) -> fmt::Result {
        write!(
            f,
            "resync: {}% done, {} KiB left",
            self.percent(),
            self.left_kib()
        )?;
        if let (Some(rate), Some(seconds)) = (self.kib_per_second(), self.seconds_left()) {
            write!(f, ", {rate} KiB/s, {seconds} s to go")?;
        }
        Ok(())
    }
}

/// How many writes the metadata of an image got since the server began.
#[derive(Clone, Copy, Debug, PartialEq, Eq)]
pub struct MetadataWrites {
    /// Those to the entries of the active extents.
    pub activity_log: u64,
    /// Those to the marks of the blocks.
    pub bitmap: u64,
}

impl MetadataWrites {
    /// No write.
    pub const NONE: MetadataWrites = MetadataWrites {
        activity_log: 0,
        bitmap: 0,
    };
}

/// How many ranges of clients' writes were completed since the server began.
#[derive(Clone, Copy, Debug, PartialEq, Eq)]
pub struct ReceiptCounts {
    /// Those that the peer has, as the protocol asks.
    pub linked: u64,
    /// Those that the local image alone had.
    pub alone: u64,
}

/// The state of a server's nodes: how far each has come, with its status line, the blocks of the device, how the server began, the progress of a
/// resync, if one goes on, and whether the peer's disk is left out, since a sync of it has failed; and how many block clients are
/// connected, what they were told of their writes, and how long their requests took, and how many writes the metadata of both images got.
#[derive(Clone, Copy, Debug)]
pub struct StatusReport {
    pub primary: PrimaryProgress,
    pub secondary: SecondaryProgress,
    pub blocks: u32,
    pub start: ServerStart,
    pub resync: Option<Resync>,
    pub is_peer_failed: bool,
    pub clients: u32,
    pub receipts: ReceiptCounts,
    pub latencies: Latencies,
    pub local_metadata: MetadataWrites,
    pub peer_metadata: MetadataWrites,
}

impl StatusReport {
    /// Returns how many KiB the device has.
    pub fn size_kib(&self) -> u64
        ensures { result ≡ 4 * self.now.blocks }
    {
        BLOCK_KIB * u64::from(self.blocks)
    }

    /// Returns both lines, the primary's first, then a line of the device's size, one of how the server began, one of a resync that goes
    /// on, and one if the peer's disk is left out. Each is ended by a newline.
    pub fn text(&self, alloc: Global) -> Result<String, AllocError> {
        let resync = match self.resync {
            Some(resync) => format!(in alloc; "{resync}\n")?,
            None => String::new(alloc),
        };
        let further = if self.is_peer_failed { PEER_FAILED } else { "" };
        format!(in alloc;
            "{}\n{}\nsize: {} KiB\n{}\n{resync}{further}",
            self.primary.line,
            self.secondary.line,
            self.size_kib(),
            self.start
        )
    }
}
