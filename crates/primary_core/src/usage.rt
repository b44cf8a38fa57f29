//! Read-only accessors.
ghost use Rattle.std.specs.Prelude.{◌≡◌, filter, is_some, length, option_map, slice_get};
ghost use Rattle.epochs.specs.Epochs.{unacknowledged};
ghost use Rattle.activitylog.specs.Activity.{writes_of};
ghost use Rattle.transferlog.specs.Writes.{is_open, is_unanswered};
ghost use Rattle.bitmap.specs.Marks.{count, marked};
ghost use Rattle.primary_core.specs.State.{items_in, resync_in, way_in, way_of};
ghost use Rattle.primary_protocol.specs.Core.{is_established};
ghost use Rattle.primary_protocol.specs.Transitions.{stopped_tuple};

use crate::entry::JournalEntry;
use crate::state::PrimaryCore;
use bitmap::Bitmap;
use blocks::{Block, Extent, Settings, Tuple};
use resync::UnderWay;

impl PrimaryCore {
    /// Returns the settings.
    pub fn settings(&self) -> Settings
        ensures { result ≡ self.now.state.settings }
    {
        self.settings
    }

    /// Returns the disk's generation identifiers.
    pub fn tuple(&self) -> Tuple
        ensures { result ≡ self.now.state.tuple }
    {
        self.generations.tuple
    }

    /// Returns the identifiers that a close would leave now: those of a lost connection if a stream stands, else the
    /// disk's.
    pub fn tuple_if_stopped(&self) -> Tuple
        ensures { result ≡ stopped_tuple self.now.state }
    {
        let mut stopped = self.generations;
        if let Some(connection) = &self.connection {
            if self.is_established() {
                stopped.lost(connection.loss);
            }
        }
        stopped.tuple
    }

    /// Returns the peer's identifiers, as last seen.
    pub fn peer(&self) -> Option<Tuple>
        ensures { result ≡ self.now.state.peer }
    {
        self.peer
    }

    /// Returns how many connections were opened, which is the number of the last one.
    pub fn connection_number(&self) -> u32
        ensures { result ≡ self.now.state.connections }
    {
        self.connections
    }

    /// Returns whether the end is open.
    pub fn is_open(&self) -> bool
        ensures { result ≡ is_some self.now.state.end }
    {
        self.connection.is_some()
    }

    /// Returns whether the connection is established: the peer's hello was taken.
    pub fn is_established(&self) -> bool
        ensures { result ≡ is_established self.now.state }
    {
        self.log.connection().is_some()
    }

    /// Returns whether a resync runs.
    pub fn is_resync(&self) -> bool
        ensures { result ≡ resync_in self.now.state.end }
    {
        match &self.connection {
            Some(connection) => connection.resync.goes_on(),
            None => false,
        }
    }

    /// Returns how many items the stream has.
    pub fn places(&self) -> u32
        ensures { result ≡ self.now.state.log.epochs.places }
    {
        self.log.places()
    }

    /// Returns how many items wait to be sent: 0 if the end is closed.
    pub fn unsent(&self) -> usize
        ensures { result ≡ length (items_in self.now.state.end) }
    {
        match &self.connection {
            Some(connection) => connection.outbox.len(),
            None => 0,
        }
    }

    /// Returns the journal: the entries of the accepted writes by number, the first being 1.
    pub fn entries(&self) -> &[JournalEntry]
        ensures { result.now ≡ self.now.state.entries }
    {
        &self.entries
    }

    /// Returns the bitmap.
    pub fn bitmap(&self) -> &Bitmap
        ensures { result.now ≡ self.now.state.marks }
    {
        &self.marks
    }

    /// Returns whether the block is marked.
    pub fn is_marked(&self, block: Block) -> bool
        ensures { result ≡ marked self.now.state.marks block.0 }
    {
        self.marks.is_marked(block)
    }

    /// Returns how many blocks are marked.
    pub fn marks(&self) -> u32
        ensures { result ≡ count self.now.state.marks }
    {
        self.marks.count()
    }

    /// Returns how many writes were accepted, which is the number of the last one.
    pub fn accepted(&self) -> u64
        ensures { result ≡ self.now.state.log.accepted }
    {
        self.log.accepted()
    }

    /// Returns the block under way, with its place in the stream and its epoch.
    pub(crate) fn under_way(&self) -> Option<UnderWay>
        ensures { option_map way_of result ≡ way_in self.now.state.end }
    {
        self.connection.as_ref()?.resync.under_way()
    }

    /// Returns how many writes are neither completed nor failed. It takes time for each number from the first
    /// unreleased write on.
    pub fn open_writes(&self) -> u32
        ensures { result ≡ length (filter is_open self.now.state.log.writes) }
    {
        self.log.open()
    }

    /// Returns how many writes were sent on the established connection and are not answered. It takes time for each
    /// number from the first unreleased write on.
    pub fn unanswered_writes(&self) -> u32
        ensures { result ≡ length (filter is_unanswered self.now.state.log.writes) }
    {
        self.log.unanswered()
    }

    /// Returns how many epochs of the stream have an item and are not acknowledged.
    pub fn open_epochs(&self) -> u64
        ensures { result ≡ unacknowledged self.now.state.log.epochs }
    {
        self.log.open_epochs()
    }

    /// Returns the number of the first write that is not released, if there is one. It takes constant time.
    pub fn first_unreleased(&self) -> Option<u64>
        ensures { result ≡ option_map (λ w. w.number) (slice_get self.now.state.log.writes 0) }
    {
        Some(self.log.unreleased_from(0)?.number())
    }

    /// Returns how many unreleased writes lie in the extent. It takes constant time.
    pub fn unreleased_in(&self, extent: Extent) -> u32
        ensures { result ≡ writes_of extent.0 self.now.state.activity.active }
    {
        self.activity.writes(extent)
    }
}
