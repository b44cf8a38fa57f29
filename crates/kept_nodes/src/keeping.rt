//! What the metadata of a node is told before a step of the node is seen.
ghost use Rattle.std.specs.Prelude.{◌≡◌, ◌+◌, ◌<◌, ◌^◌, ◌==◌, ℕ, true, false, not, List, length, slice_index, IsTrue, IfOk, IfSome, IfErr, OnOk, OnErr};
ghost use Rattle.bitmap.specs.Marks.{marked};
ghost use Rattle.blocks.specs.declared.block.TheConstants.{EXTENT_BLOCKS};
ghost use Rattle.blocks.specs.declared.refusal.Refusal.TheVariants.{LocalFault};
ghost use Rattle.kept_nodes.specs.Kept.{is_broken};
ghost use Rattle.kept_nodes.specs.Left.{Across, EntriesStand, IsKnown, LosesNothing, Outcomes};
ghost use Rattle.kept_nodes.specs.Asked.{MarksStand};
ghost use Rattle.metadata.specs.Says.{extents_of, marked_in};
ghost use Rattle.metadata.specs.State.{is_entered};
ghost use Rattle.metadata.specs.Steps.{SameMarks};
ghost use Rattle.model.specs.Contents.{extent_of};

use bitmap::Bitmap;
use blocks::{Block, EXTENT_BLOCKS, Extent, Refusal, Tuple};
use metadata::{Identifiers, Metadata, MetadataFault, StableFile};

/// Enters an extent, if there is metadata and the device has the extent. `LocalFault` (8) if it is not entered and cannot be.
pub(crate) fn enter_extent<F: StableFile>(
    metadata: &mut Option<Metadata<F>>,
    extent: Extent,
) -> Result<(), Refusal>
    ensures keeps { Across (LosesNothing F.seen F.may_leave F.faithful) metadata.old metadata.new }
    ensures identifiers { Across (λ old new. new.identifiers ≡ old.identifiers) metadata.old metadata.new }
    ensures entered { OnOk result (IfSome metadata.new (λ m. extent.0 < length m.entries → is_entered m.entries extent.0 ≡ true)) }
    ensures sized { IfSome metadata.new (λ m. length m.entries ≡ extents_of m.header.blocks) }
    ensures whole { OnOk result (is_broken metadata.new ≡ is_broken metadata.old) }
    ensures goes_on { IfSome metadata.old (λ m. is_entered m.entries extent.0 ≡ true → OnErr result ⊥) }
    ensures fault { OnErr result (is_broken metadata.new ≡ true) }
    ensures refused { IfErr result (λ e. e ≡ LocalFault) }
{
    let Some(metadata) = metadata else {
        return Ok(());
    };
    if extent.0 >= metadata.extents() || metadata.is_entered(extent) {
        return Ok(());
    }
    match enter(metadata, extent) {
        Ok(()) => Ok(()),
        Err(_) => Err(Refusal::LocalFault),
    }
}

/// Enters an extent of the device, and changes no mark.
pub(crate) fn enter<F: StableFile>(
    metadata: &mut Metadata<F>,
    extent: Extent,
) -> Result<(), MetadataFault>
    requires inside { extent.0 < length metadata.old.entries }
    ensures keeps { LosesNothing F.seen F.may_leave F.faithful metadata.old metadata.new }
    ensures identifiers { metadata.new.identifiers ≡ metadata.old.identifiers }
    ensures size { length metadata.new.entries ≡ length metadata.old.entries }
    ensures entered { OnOk result (is_entered metadata.new.entries extent.0 ≡ true) }
    ensures whole { OnOk result (metadata.new.is_broken ≡ metadata.old.is_broken) }
    ensures fault { OnErr result (metadata.new.is_broken ≡ true) }
    ensures marks { OnOk result (IsTrue (F.faithful metadata.new.file) → MarksStand F.seen F.may_leave metadata.old → MarksStand F.seen F.may_leave metadata.new) }
    ensures same { OnOk result (IsTrue (F.faithful metadata.new.file) → SameMarks (F.seen metadata.old.file) (F.seen metadata.new.file)) }
{
    if metadata.is_broken() {
        return Err(MetadataFault::Broken);
    }
    metadata.enter(extent)
}

/// Returns whether there is metadata, and a call of its file has failed.
pub(crate) fn is_broken<F: StableFile>(metadata: &Option<Metadata<F>>) -> bool
    ensures { result ≡ is_broken metadata.now }
{
    match metadata {
        Some(metadata) => metadata.is_broken(),
        None => false,
    }
}

/// Enters every extent, if there is metadata. Returns whether they are entered now, or there is none.
pub(crate) fn enter_device<F: StableFile>(metadata: &mut Option<Metadata<F>>) -> bool
    ensures keeps { Across (LosesNothing F.seen F.may_leave F.faithful) metadata.old metadata.new }
    ensures identifiers { Across (λ old new. new.identifiers ≡ old.identifiers) metadata.old metadata.new }
    ensures entered { result ≡ true → IfSome metadata.new (λ m. (x : ℕ) → x < length m.entries → is_entered m.entries x ≡ true) }
    ensures sized { IfSome metadata.new (λ m. length m.entries ≡ extents_of m.header.blocks) }
    ensures whole { result ≡ true → is_broken metadata.new ≡ is_broken metadata.old }
    ensures fault { result ≡ false → is_broken metadata.new ≡ true }
{
    match metadata {
        Some(metadata) => !metadata.is_broken() && metadata.enter_all().is_ok(),
        None => true,
    }
}

/// Saves the identifiers of a disk, if there is metadata, they are not those that were saved last, and the file is not broken. If it
/// fails, the metadata is broken.
pub(crate) fn save_turned<F: StableFile>(
    metadata: &mut Option<Metadata<F>>,
    tuple: Tuple,
    is_consistent: bool,
)
    ensures keeps { Across (LosesNothing F.seen F.may_leave F.faithful) metadata.old metadata.new }
    ensures entries { Across (λ old new. new.entries ≡ old.entries) metadata.old metadata.new }
    ensures saved { IfSome metadata.new (λ m. m.is_broken ≡ false → (m.identifiers.tuple ≡ tuple) × (m.identifiers.is_consistent ≡ is_consistent)) }
    ensures broken { is_broken metadata.old ≡ true → metadata.new ≡ metadata.old }
{
    let Some(metadata) = metadata else {
        return;
    };
    let saved = metadata.identifiers();
    if metadata.is_broken() || (saved.tuple == tuple && saved.is_consistent == is_consistent) {
        return;
    }
    let _ = metadata.save(&Identifiers {
        tuple,
        is_consistent,
        ..saved
    });
}

/// Enters the extent of each marked block that the file does not have, so that whatever a stop leaves has each marked block.
pub(crate) fn enter_marked<F: StableFile>(
    metadata: &mut Metadata<F>,
    marks: &Bitmap,
) -> Result<(), MetadataFault>
    requires blocks { length marks.now ≡ metadata.old.header.blocks }
    ensures keeps { LosesNothing F.seen F.may_leave F.faithful metadata.old metadata.new }
    ensures identifiers { metadata.new.identifiers ≡ metadata.old.identifiers }
    ensures whole { OnOk result (metadata.new.is_broken ≡ false) }
    ensures stand { OnOk result (IsTrue (F.faithful metadata.new.file) → EntriesStand (Outcomes F.seen F.may_leave metadata.new) metadata.new.entries) }
    ensures known { OnOk result (IsTrue (F.faithful metadata.new.file) → (block : ℕ) → marked marks.now block ≡ true → IsKnown (Outcomes F.seen F.may_leave metadata.new) block) }
    ensures fault { OnErr result (metadata.new.is_broken ≡ true) }
{
    if metadata.is_broken() {
        return Err(MetadataFault::Broken);
    }
    // What the disk has may differ from what the file holds, until it is synced.
    metadata.sync()?;
    for number in 0..metadata.extents() {
        enter_if_missing(metadata, marks, Extent(number))?;
    }
    Ok(())
}

// Enters an extent of the device, unless it is entered or the file has each of its marked blocks.
fn enter_if_missing<F: StableFile>(
    metadata: &mut Metadata<F>,
    marks: &Bitmap,
    extent: Extent,
) -> Result<(), MetadataFault>
    requires blocks { length marks.now ≡ metadata.old.header.blocks }
    requires inside { extent.0 < length metadata.old.entries }
    ensures keeps { LosesNothing F.seen F.may_leave F.faithful metadata.old metadata.new }
    ensures identifiers { metadata.new.identifiers ≡ metadata.old.identifiers }
    ensures size { length metadata.new.entries ≡ length metadata.old.entries }
    ensures whole { OnOk result (metadata.new.is_broken ≡ metadata.old.is_broken) }
    ensures fault { OnErr result (metadata.new.is_broken ≡ true) }
    ensures marks { OnOk result (IsTrue (F.faithful metadata.new.file) → MarksStand F.seen F.may_leave metadata.old → MarksStand F.seen F.may_leave metadata.new) }
    ensures known { OnOk result (IsTrue (F.faithful metadata.new.file) → MarksStand F.seen F.may_leave metadata.old → EntriesStand (Outcomes F.seen F.may_leave metadata.old) metadata.old.entries
        → (block : ℕ) → extent_of block ≡ extent.0 → marked marks.now block ≡ true → IsKnown (Outcomes F.seen F.may_leave metadata.new) block) }
{
    if marks.count_in(extent) == 0 || metadata.is_entered(extent) {
        return Ok(());
    }
    if has_marks(metadata, marks, extent)? {
        return Ok(());
    }
    enter(metadata, extent)
}

/// Returns whether the file has each marked block of the extent. What a stop leaves is what it would have left before.
pub(crate) fn has_marks<F: StableFile>(
    metadata: &mut Metadata<F>,
    marks: &Bitmap,
    extent: Extent,
) -> Result<bool, MetadataFault>
    requires blocks { length marks.now ≡ metadata.old.header.blocks }
    requires inside { extent.0 < length metadata.old.entries }
    ensures keeps { LosesNothing F.seen F.may_leave F.faithful metadata.old metadata.new }
    ensures left { (c : List ℕ) → Outcomes F.seen F.may_leave metadata.new c → Outcomes F.seen F.may_leave metadata.old c }
    ensures memory { metadata.new ≡ record metadata.old { file = metadata.new.file; is_broken = metadata.new.is_broken } }
    ensures seen { F.seen metadata.new.file ≡ F.seen metadata.old.file }
    ensures whole { OnOk result (metadata.new.is_broken ≡ metadata.old.is_broken) }
    ensures fault { OnErr result (metadata.new.is_broken ≡ true) }
    ensures marked { IfOk result (λ all. all ≡ true → IsTrue (F.faithful metadata.new.file) → (block : ℕ) → extent_of block ≡ extent.0 → marked marks.now block ≡ true
        → marked_in (F.seen metadata.new.file) block ≡ true) }
{
    let mut room = [0u8; EXTENT_BLOCKS as usize];
    has_marks_in(metadata, marks, extent, &mut room)
}

// Returns what `has_marks` does. The room is one that the file's marks are read into.
fn has_marks_in<F: StableFile>(
    metadata: &mut Metadata<F>,
    marks: &Bitmap,
    extent: Extent,
    room: &mut [u8],
) -> Result<bool, MetadataFault>
    requires blocks { length marks.now ≡ metadata.old.header.blocks }
    requires inside { extent.0 < length metadata.old.entries }
    requires room { length room.old ≡ EXTENT_BLOCKS }
    ensures keeps { LosesNothing F.seen F.may_leave F.faithful metadata.old metadata.new }
    ensures left { (c : List ℕ) → Outcomes F.seen F.may_leave metadata.new c → Outcomes F.seen F.may_leave metadata.old c }
    ensures memory { metadata.new ≡ record metadata.old { file = metadata.new.file; is_broken = metadata.new.is_broken } }
    ensures seen { F.seen metadata.new.file ≡ F.seen metadata.old.file }
    ensures whole { OnOk result (metadata.new.is_broken ≡ metadata.old.is_broken) }
    ensures fault { OnErr result (metadata.new.is_broken ≡ true) }
    ensures marked { IfOk result (λ all. all ≡ true → IsTrue (F.faithful metadata.new.file) → (block : ℕ) → extent_of block ≡ extent.0 → marked marks.now block ≡ true
        → marked_in (F.seen metadata.new.file) block ≡ true) }
{
    if metadata.is_broken() {
        return Err(MetadataFault::Broken);
    }
    let first = extent.0 * EXTENT_BLOCKS;
    let count = EXTENT_BLOCKS.min(metadata.header().blocks - first);
    let filed = &mut room[..count as usize];
    metadata.marks(Block(first), filed)?;
    Ok(has_each(filed, marks, first))
}

// Returns whether the marks of a file, from the block `first` on, have each block that is marked.
fn has_each(filed: &[u8], marks: &Bitmap, first: u64) -> bool
    requires { first + length filed.now < 2 ^ 64 }
    ensures { result ≡ true → (offset : ℕ) → offset < length filed.now → marked marks.now (first + offset) ≡ true → not (slice_index filed.now offset == 0) ≡ true }
{
    for (offset, mark) in filed.iter().enumerate() {
        if *mark == 0 && marks.is_marked(Block(first + offset as u64)) {
            return false;
        }
    }
    true
}
