//! Extents that leave the metadata again.
ghost use Rattle.std.specs.Prelude.{◌≡◌, ◌≢◌, ◌<◌, ℕ, List, true, false, length, slice_index, IsTrue, IfOk, OnOk};
ghost use Rattle.kept_nodes.specs.Asked.{MarksStand};
ghost use Rattle.kept_nodes.specs.Leaving.{HasCovered, HasDevice, StillCovers};
ghost use Rattle.kept_nodes.specs.Left.{Across, LosesNothing, Outcomes};
ghost use Rattle.metadata.specs.State.{is_entered};

use crate::KeptPrimary;
use crate::keeping::has_marks;
use blocks::{Extent, Store};
use link::{FrameIn, FrameOut};
use metadata::{Metadata, MetadataFault, StableFile};
use primary::Primary;
use session_nodes::Beginning;

impl<
    B: Beginning,
    O: FrameOut + Drop,
    I: FrameIn + Drop,
    S: Store + Drop,
    F: StableFile,
> KeptPrimary<B, O, I, S, F> {
    /// Takes out each prepared extent to which no write was accepted since it was prepared, if it has no unreleased write and the file
    /// has each of its marked blocks. Returns how many left.
    pub fn leave_prepared(&mut self) -> u64
        ensures node { self.new.node ≡ self.old.node }
        ensures only_prepared { Across (λ old new. (x : ℕ) → is_entered old.entries x ≡ true → is_entered new.entries x ≡ false → slice_index self.old.prepared x ≢ 0) self.old.metadata self.new.metadata }
        ensures none_enters { Across (λ old new. (x : ℕ) → is_entered new.entries x ≡ true → is_entered old.entries x ≡ true) self.old.metadata self.new.metadata }
    {
        match &mut self.metadata {
            Some(metadata) => leave(metadata, self.node.node(), &mut self.prepared).unwrap_or(0),
            None => 0,
        }
    }
}

// Takes out the extents that are prepared. None is prepared after it, unless a call of the file fails.
fn leave<O: FrameOut + Drop, I: FrameIn + Drop, S: Store + Drop, F: StableFile>(
    metadata: &mut Metadata<F>,
    node: &Primary<O, I, S>,
    prepared: &mut [u8],
) -> Result<u64, MetadataFault>
    requires device { HasDevice node.now metadata.old.header.blocks }
    ensures covers { StillCovers F.seen F.may_leave F.faithful node.now metadata.old metadata.new }
    ensures identifiers { metadata.new.identifiers ≡ metadata.old.identifiers }
    ensures stays { metadata.old.is_broken ≡ true → metadata.new.is_broken ≡ true }
    ensures only_prepared { (x : ℕ) → is_entered metadata.old.entries x ≡ true → is_entered metadata.new.entries x ≡ false → slice_index prepared.old x ≢ 0 }
    ensures none_enters { (x : ℕ) → is_entered metadata.new.entries x ≡ true → is_entered metadata.old.entries x ≡ true }
{
    // What the disk has may differ from what the file holds, until it is synced.
    metadata.sync()?;
    let mut count = 0u64;
    for number in 0..metadata.extents() {
        if leave_one(metadata, node, prepared, Extent(number))? {
            count = count.saturating_add(1);
        }
    }
    Ok(count)
}

// Takes out an extent that is prepared, if it can leave. It is not prepared any more then. Returns whether it left.
fn leave_one<O: FrameOut + Drop, I: FrameIn + Drop, S: Store + Drop, F: StableFile>(
    metadata: &mut Metadata<F>,
    node: &Primary<O, I, S>,
    prepared: &mut [u8],
    extent: Extent,
) -> Result<bool, MetadataFault>
    requires device { HasDevice node.now metadata.old.header.blocks }
    requires whole { metadata.old.is_broken ≡ false }
    ensures covers { (IsTrue (F.faithful metadata.new.file) → MarksStand F.seen F.may_leave metadata.old) → StillCovers F.seen F.may_leave F.faithful node.now metadata.old metadata.new }
    ensures marks { OnOk result (IsTrue (F.faithful metadata.new.file) → MarksStand F.seen F.may_leave metadata.old → MarksStand F.seen F.may_leave metadata.new) }
    ensures falls { IsTrue (F.faithful metadata.new.file) → IsTrue (F.faithful metadata.old.file) }
    ensures header { metadata.new.header ≡ metadata.old.header }
    ensures identifiers { metadata.new.identifiers ≡ metadata.old.identifiers }
    ensures whole { OnOk result (metadata.new.is_broken ≡ false) }
    ensures only_prepared { (x : ℕ) → is_entered metadata.old.entries x ≡ true → is_entered metadata.new.entries x ≡ false → slice_index prepared.old x ≢ 0 }
    ensures none_enters { (x : ℕ) → is_entered metadata.new.entries x ≡ true → is_entered metadata.old.entries x ≡ true }
    ensures none_prepared { (x : ℕ) → slice_index prepared.old x ≡ 0 → slice_index prepared.new x ≡ 0 }
{
    let place = extent.0 as usize;
    if extent.0 >= metadata.extents() || place >= prepared.len() || prepared[place] == 0 {
        return Ok(false);
    }
    prepared[place] = 0;
    if !can_leave(metadata, node, extent)? {
        return Ok(false);
    }
    metadata.leave(extent)?;
    Ok(true)
}

// Returns whether the extent is entered and has no unreleased write, and the file has each of its marked blocks, so that all of it that
// is covered is marked in the file.
fn can_leave<O: FrameOut + Drop, I: FrameIn + Drop, S: Store + Drop, F: StableFile>(
    metadata: &mut Metadata<F>,
    node: &Primary<O, I, S>,
    extent: Extent,
) -> Result<bool, MetadataFault>
    requires device { HasDevice node.now metadata.old.header.blocks }
    requires inside { extent.0 < length metadata.old.entries }
    ensures keeps { LosesNothing F.seen F.may_leave F.faithful metadata.old metadata.new }
    ensures left { (c : List ℕ) → Outcomes F.seen F.may_leave metadata.new c → Outcomes F.seen F.may_leave metadata.old c }
    ensures memory { metadata.new ≡ record metadata.old { file = metadata.new.file; is_broken = metadata.new.is_broken } }
    ensures seen { F.seen metadata.new.file ≡ F.seen metadata.old.file }
    ensures whole { OnOk result (metadata.new.is_broken ≡ metadata.old.is_broken) }
    ensures marked { IfOk result (λ can. can ≡ true → IsTrue (F.faithful metadata.new.file) → HasCovered node.now extent.0 (F.seen metadata.new.file)) }
{
    if !metadata.is_entered(extent) || node.unreleased_in(extent) > 0 {
        return Ok(false);
    }
    has_marks(metadata, node.bitmap(), extent)
}
