//! Extents that are prepared to leave the metadata.
ghost use Rattle.std.specs.Prelude.{◌≡◌, ◌<◌, length};
ghost use Rattle.kept_nodes.specs.Leaving.{HasDevice};
ghost use Rattle.kept_nodes.specs.Left.{Across, LosesNothing};

use crate::KeptPrimary;
use crate::keeping::has_marks;
use crate::recording::write_marks;
use blocks::{Extent, Store};
use link::{FrameIn, FrameOut};
use metadata::{Metadata, MetadataFault, StableFile};
use primary::Primary;
use session_nodes::Beginning;

/// How many entered extents stay, so that those that are written to all the time are not entered again and again.
pub const STAYING_EXTENTS: u64 = 64;

impl<
    B: Beginning,
    O: FrameOut + Drop,
    I: FrameIn + Drop,
    S: Store + Drop,
    F: StableFile,
> KeptPrimary<B, O, I, S, F> {
    /// Prepares extents to leave: writes the marks of entered extents that have no unreleased write, of `most` at the most, and syncs the
    /// file. Returns how many extents are prepared now. After both disks were synced since, `leave_prepared` takes them out. Does nothing
    /// and returns 0 if at most `STAYING_EXTENTS` are entered: those that are written to all the time stay.
    pub fn prepare_leaving(&mut self, most: u64) -> u64
        ensures node { self.new.node ≡ self.old.node }
        ensures entries { Across (λ old new. new.entries ≡ old.entries) self.old.metadata self.new.metadata }
    {
        match &mut self.metadata {
            Some(metadata) => {
                prepare(metadata, self.node.node(), &mut self.prepared, most).unwrap_or(0)
            }
            None => 0,
        }
    }
}

// Prepares extents to leave, of `most` at the most. It writes marks of entered extents alone, so that nothing is lost.
fn prepare<O: FrameOut + Drop, I: FrameIn + Drop, S: Store + Drop, F: StableFile>(
    metadata: &mut Metadata<F>,
    node: &Primary<O, I, S>,
    prepared: &mut [u8],
    most: u64,
) -> Result<u64, MetadataFault>
    requires device { HasDevice node.now metadata.old.header.blocks }
    ensures keeps { LosesNothing F.seen F.may_leave F.faithful metadata.old metadata.new }
    ensures entries { metadata.new.entries ≡ metadata.old.entries }
    ensures identifiers { metadata.new.identifiers ≡ metadata.old.identifiers }
{
    if entered_count(metadata) <= STAYING_EXTENTS {
        return Ok(0);
    }
    let mut count = 0u64;
    for number in 0..metadata.extents() {
        if count < most && prepare_one(metadata, node, prepared, Extent(number))? {
            count = count.saturating_add(1);
        }
    }
    if count > 0 {
        metadata.sync()?;
    }
    Ok(count)
}

// Returns how many extents are entered.
fn entered_count<F: StableFile>(metadata: &Metadata<F>) -> u64 {
    let mut count = 0u64;
    for number in 0..metadata.extents() {
        if metadata.is_entered(Extent(number)) {
            count = count.saturating_add(1);
        }
    }
    count
}

// Prepares an extent to leave, if it is entered and has no unreleased write. Returns whether it does.
fn prepare_one<O: FrameOut + Drop, I: FrameIn + Drop, S: Store + Drop, F: StableFile>(
    metadata: &mut Metadata<F>,
    node: &Primary<O, I, S>,
    prepared: &mut [u8],
    extent: Extent,
) -> Result<bool, MetadataFault>
    requires device { HasDevice node.now metadata.old.header.blocks }
    requires inside { extent.0 < length metadata.old.entries }
    ensures keeps { LosesNothing F.seen F.may_leave F.faithful metadata.old metadata.new }
    ensures entries { metadata.new.entries ≡ metadata.old.entries }
    ensures identifiers { metadata.new.identifiers ≡ metadata.old.identifiers }
{
    let place = extent.0 as usize;
    if place >= prepared.len() || prepared[place] != 0 {
        return Ok(false);
    }
    if !metadata.is_entered(extent) || node.unreleased_in(extent) > 0 {
        return Ok(false);
    }
    if !has_marks(metadata, node.bitmap(), extent)? {
        write_marks(metadata, node.bitmap(), extent)?;
    }
    prepared[place] = 1;
    Ok(true)
}
