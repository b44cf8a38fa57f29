//! Writing the marks of a primary.
ghost use Rattle.std.specs.Prelude.{◌≡◌, ◌⊎◌, ◌+◌, ◌<◌, ◌≤◌, ◌^◌, ◌==◌, ℕ, List, true, false, not, length, slice_index, IsTrue, IfOk, OnOk, OnErr};
ghost use Rattle.bitmap.specs.Marks.{count_in, marked};
ghost use Rattle.blocks.specs.declared.block.TheConstants.{EXTENT_BLOCKS};
ghost use Rattle.kept_nodes.specs.Left.{EntriesStand, IsKnown, LosesNothing, Outcomes, known_in};
ghost use Rattle.kept_nodes.specs.Recorded.{ComesBy, HasMarks, HasMarksOf, KeepsMarked, OnlyMarksOf};
ghost use Rattle.metadata.specs.Calls.{Only};
ghost use Rattle.metadata.specs.Says.{entered_in, extents_of, marked_in};
ghost use Rattle.metadata.specs.State.{is_entered};
ghost use Rattle.metadata.specs.Steps.{IsIn, OnlyEntry, OnlyMarks, SameMarks};

use crate::keeping::enter;
use bitmap::Bitmap;
use blocks::{Block, EXTENT_BLOCKS, Extent};
use metadata::{MAX_MARKS, Metadata, MetadataFault, StableFile};

/// Has the metadata say exactly these marks and no entered extent, all of it on stable storage. Whatever a stop leaves meanwhile still
/// has each of these blocks that it had before. The node is closed, and both disks are synced.
pub fn record_marks<F: StableFile>(
    metadata: &mut Metadata<F>,
    marks: &Bitmap,
) -> Result<(), MetadataFault>
    requires blocks { length marks.now ≡ metadata.old.header.blocks }
    ensures exactly { OnOk result (IsTrue (F.faithful metadata.new.file) → (block : ℕ) → block < metadata.old.header.blocks
        → known_in (F.seen metadata.new.file) block ≡ marked marks.now block) }
    ensures durable { OnOk result (Only (F.seen metadata.new.file) (F.may_leave metadata.new.file)) }
    ensures keeps { IsTrue (F.faithful metadata.new.file) → EntriesStand (Outcomes F.seen F.may_leave metadata.old) metadata.old.entries → (block : ℕ)
        → marked marks.now block ≡ true → IsKnown (Outcomes F.seen F.may_leave metadata.old) block → IsKnown (Outcomes F.seen F.may_leave metadata.new) block }
    ensures identifiers { metadata.new.identifiers ≡ metadata.old.identifiers }
    ensures header { metadata.new.header ≡ metadata.old.header }
    ensures falls { IsTrue (F.faithful metadata.new.file) → IsTrue (F.faithful metadata.old.file) }
{
    record_extents(metadata, marks)?;
    // No extent leaves before its marks are on stable storage.
    metadata.sync()?;
    leave_extents(metadata)?;
    metadata.sync()
}

// Writes the marks of each extent.
fn record_extents<F: StableFile>(
    metadata: &mut Metadata<F>,
    marks: &Bitmap,
) -> Result<(), MetadataFault>
    requires blocks { length marks.now ≡ metadata.old.header.blocks }
    ensures keeps { KeepsMarked marks.now F.seen F.may_leave F.faithful metadata.old metadata.new }
    ensures identifiers { metadata.new.identifiers ≡ metadata.old.identifiers }
    ensures written { OnOk result (IsTrue (F.faithful metadata.new.file)
        → HasMarks (extents_of metadata.old.header.blocks) marks.now (F.seen metadata.new.file)) }
{
    for number in 0..metadata.extents() {
        record_extent(metadata, marks, Extent(number))?;
    }
    Ok(())
}

// Takes out each extent that is entered. No mark changes.
fn leave_extents<F: StableFile>(metadata: &mut Metadata<F>) -> Result<(), MetadataFault>
    ensures comes { IsTrue (F.faithful metadata.new.file) → ComesBy SameMarks F.seen F.may_leave metadata.old metadata.new }
    ensures marks { OnOk result (IsTrue (F.faithful metadata.new.file) → SameMarks (F.seen metadata.old.file) (F.seen metadata.new.file)) }
    ensures left { OnOk result (IsTrue (F.faithful metadata.new.file) → (x : ℕ) → x < extents_of metadata.old.header.blocks
        → entered_in (F.seen metadata.new.file) x ≡ false) }
    ensures identifiers { metadata.new.identifiers ≡ metadata.old.identifiers }
    ensures header { metadata.new.header ≡ metadata.old.header }
    ensures falls { IsTrue (F.faithful metadata.new.file) → IsTrue (F.faithful metadata.old.file) }
{
    for number in 0..metadata.extents() {
        leave_one(metadata, Extent(number))?;
    }
    Ok(())
}

// Takes out an extent, if it is entered.
fn leave_one<F: StableFile>(metadata: &mut Metadata<F>, extent: Extent) -> Result<(), MetadataFault>
    requires inside { extent.0 < length metadata.old.entries }
    ensures comes { IsTrue (F.faithful metadata.new.file) → ComesBy SameMarks F.seen F.may_leave metadata.old metadata.new }
    ensures step { OnOk result (IsTrue (F.faithful metadata.new.file) → OnlyEntry extent.0 (F.seen metadata.old.file) (F.seen metadata.new.file)) }
    ensures left { OnOk result (IsTrue (F.faithful metadata.new.file) → entered_in (F.seen metadata.new.file) extent.0 ≡ false) }
    ensures size { length metadata.new.entries ≡ length metadata.old.entries }
    ensures identifiers { metadata.new.identifiers ≡ metadata.old.identifiers }
    ensures header { metadata.new.header ≡ metadata.old.header }
    ensures falls { IsTrue (F.faithful metadata.new.file) → IsTrue (F.faithful metadata.old.file) }
{
    if metadata.is_broken() {
        return Err(MetadataFault::Broken);
    }
    if !metadata.is_entered(extent) {
        return Ok(());
    }
    metadata.leave(extent)
}

// Writes the marks of an extent, unless the file has just these. A write may be torn, so the extent is entered first if any of its blocks
// is marked.
fn record_extent<F: StableFile>(
    metadata: &mut Metadata<F>,
    marks: &Bitmap,
    extent: Extent,
) -> Result<(), MetadataFault>
    requires blocks { length marks.now ≡ metadata.old.header.blocks }
    requires inside { extent.0 < length metadata.old.entries }
    ensures keeps { KeepsMarked marks.now F.seen F.may_leave F.faithful metadata.old metadata.new }
    ensures identifiers { metadata.new.identifiers ≡ metadata.old.identifiers }
    ensures size { length metadata.new.entries ≡ length metadata.old.entries }
    ensures written { OnOk result (IsTrue (F.faithful metadata.new.file) → HasMarks extent.0 marks.now (F.seen metadata.old.file)
        → HasMarks (extent.0 + 1) marks.now (F.seen metadata.new.file)) }
{
    if has_just_marks(metadata, marks, extent)? {
        return Ok(());
    }
    enter_if_marked(metadata, marks, extent)?;
    write_marks(metadata, marks, extent)
}

// Enters an extent of the device, if any of its blocks is marked.
fn enter_if_marked<F: StableFile>(
    metadata: &mut Metadata<F>,
    marks: &Bitmap,
    extent: Extent,
) -> Result<(), MetadataFault>
    requires inside { extent.0 < length metadata.old.entries }
    ensures keeps { LosesNothing F.seen F.may_leave F.faithful metadata.old metadata.new }
    ensures entered { OnOk result ((is_entered metadata.new.entries extent.0 ≡ true) ⊎ (count_in marks.now extent.0 ≡ 0)) }
    ensures same { OnOk result (IsTrue (F.faithful metadata.new.file) → SameMarks (F.seen metadata.old.file) (F.seen metadata.new.file)) }
    ensures identifiers { metadata.new.identifiers ≡ metadata.old.identifiers }
    ensures size { length metadata.new.entries ≡ length metadata.old.entries }
{
    if marks.count_in(extent) == 0 {
        return Ok(());
    }
    enter(metadata, extent)
}

/// Writes the marks of an extent, which is entered if any of its blocks is marked, a run of like ones at a time.
pub(crate) fn write_marks<F: StableFile>(
    metadata: &mut Metadata<F>,
    marks: &Bitmap,
    extent: Extent,
) -> Result<(), MetadataFault>
    requires blocks { length marks.now ≡ metadata.old.header.blocks }
    requires inside { extent.0 < length metadata.old.entries }
    ensures keeps { is_entered metadata.old.entries extent.0 ≡ true → LosesNothing F.seen F.may_leave F.faithful metadata.old metadata.new }
    ensures entries { metadata.new.entries ≡ metadata.old.entries }
    ensures identifiers { metadata.new.identifiers ≡ metadata.old.identifiers }
    ensures whole { OnOk result (metadata.new.is_broken ≡ metadata.old.is_broken) }
    ensures fault { OnErr result (metadata.new.is_broken ≡ true) }
    ensures spares { count_in marks.now extent.0 ≡ 0 → KeepsMarked marks.now F.seen F.may_leave F.faithful metadata.old metadata.new }
    ensures others { OnOk result (IsTrue (F.faithful metadata.new.file) → OnlyMarksOf extent.0 (F.seen metadata.old.file) (F.seen metadata.new.file)) }
    ensures written { OnOk result (IsTrue (F.faithful metadata.new.file) → HasMarksOf extent.0 marks.now (F.seen metadata.new.file)) }
{
    if metadata.is_broken() {
        return Err(MetadataFault::Broken);
    }
    let first = extent.0 * EXTENT_BLOCKS;
    let end = metadata.header().blocks.min(first + EXTENT_BLOCKS);
    let mut from = first;
    while from < end {
        let to = end_of_run(marks, from, end);
        write_run(metadata, from, to - from, marks.is_marked(Block(from)))?;
        from = to;
    }
    Ok(())
}

// Returns the first block from `from` on that is not marked as that one is, or `end` if none before `end` is such a one.
fn end_of_run(marks: &Bitmap, from: u64, end: u64) -> u64
    requires { from < end }
    ensures after { from < result }
    ensures before { result ≤ end }
    ensures alike { (block : ℕ) → from ≤ block → block < result → marked marks.now block ≡ marked marks.now from }
{
    let is_marked = marks.is_marked(Block(from));
    for block in from + 1..end {
        if marks.is_marked(Block(block)) != is_marked {
            return block;
        }
    }
    end
}

// Marks or unmarks the `count` blocks from `first` on.
fn write_run<F: StableFile>(
    metadata: &mut Metadata<F>,
    first: u64,
    count: u64,
    is_marked: bool,
) -> Result<(), MetadataFault>
    requires inside { first + count ≤ metadata.old.header.blocks }
    requires few { count ≤ MAX_MARKS }
    ensures memory { metadata.new ≡ record metadata.old { file = metadata.new.file; is_broken = metadata.new.is_broken } }
    ensures whole { OnOk result (metadata.new.is_broken ≡ metadata.old.is_broken) }
    ensures fault { OnErr result (metadata.new.is_broken ≡ true) }
    ensures falls { IsTrue (F.faithful metadata.new.file) → IsTrue (F.faithful metadata.old.file) }
    ensures comes { IsTrue (F.faithful metadata.new.file) → ComesBy (OnlyMarks first count) F.seen F.may_leave metadata.old metadata.new }
    ensures others { OnOk result (IsTrue (F.faithful metadata.new.file) → OnlyMarks first count (F.seen metadata.old.file) (F.seen metadata.new.file)) }
    ensures written { OnOk result (IsTrue (F.faithful metadata.new.file) → (block : ℕ) → IsIn first count block
        → marked_in (F.seen metadata.new.file) block ≡ is_marked) }
{
    if metadata.is_broken() {
        return Err(MetadataFault::Broken);
    }
    if is_marked {
        metadata.mark(Block(first), count)
    } else {
        metadata.unmark(Block(first), count)
    }
}

// Returns whether the file has just these marks of the extent's blocks. What a stop leaves is what it would have left before.
fn has_just_marks<F: StableFile>(
    metadata: &mut Metadata<F>,
    marks: &Bitmap,
    extent: Extent,
) -> Result<bool, MetadataFault>
    requires blocks { length marks.now ≡ metadata.old.header.blocks }
    requires inside { extent.0 < length metadata.old.entries }
    ensures left { (c : List ℕ) → Outcomes F.seen F.may_leave metadata.new c → Outcomes F.seen F.may_leave metadata.old c }
    ensures memory { metadata.new ≡ record metadata.old { file = metadata.new.file; is_broken = metadata.new.is_broken } }
    ensures seen { F.seen metadata.new.file ≡ F.seen metadata.old.file }
    ensures falls { IsTrue (F.faithful metadata.new.file) → IsTrue (F.faithful metadata.old.file) }
    ensures same { IfOk result (λ same. same ≡ true → IsTrue (F.faithful metadata.new.file) → HasMarksOf extent.0 marks.now (F.seen metadata.new.file)) }
{
    let mut room = [0u8; EXTENT_BLOCKS as usize];
    has_just_marks_in(metadata, marks, extent, &mut room)
}

// Returns what `has_just_marks` does. The room is one that the file's marks are read into.
fn has_just_marks_in<F: StableFile>(
    metadata: &mut Metadata<F>,
    marks: &Bitmap,
    extent: Extent,
    room: &mut [u8],
) -> Result<bool, MetadataFault>
    requires blocks { length marks.now ≡ metadata.old.header.blocks }
    requires inside { extent.0 < length metadata.old.entries }
    requires room { length room.old ≡ EXTENT_BLOCKS }
    ensures left { (c : List ℕ) → Outcomes F.seen F.may_leave metadata.new c → Outcomes F.seen F.may_leave metadata.old c }
    ensures memory { metadata.new ≡ record metadata.old { file = metadata.new.file; is_broken = metadata.new.is_broken } }
    ensures seen { F.seen metadata.new.file ≡ F.seen metadata.old.file }
    ensures falls { IsTrue (F.faithful metadata.new.file) → IsTrue (F.faithful metadata.old.file) }
    ensures same { IfOk result (λ same. same ≡ true → IsTrue (F.faithful metadata.new.file) → HasMarksOf extent.0 marks.now (F.seen metadata.new.file)) }
{
    if metadata.is_broken() {
        return Err(MetadataFault::Broken);
    }
    let first = extent.0 * EXTENT_BLOCKS;
    let count = EXTENT_BLOCKS.min(metadata.header().blocks - first);
    let filed = &mut room[..count as usize];
    metadata.marks(Block(first), filed)?;
    Ok(are_filed(filed, marks, first))
}

// Returns whether just these blocks from `first` on are marked in the file.
fn are_filed(filed: &[u8], marks: &Bitmap, first: u64) -> bool
    requires { first + length filed.now < 2 ^ 64 }
    ensures { result ≡ true → (offset : ℕ) → offset < length filed.now → not (slice_index filed.now offset == 0) ≡ marked marks.now (first + offset) }
{
    for (offset, mark) in filed.iter().enumerate() {
        if (*mark != 0) != marks.is_marked(Block(first + offset as u64)) {
            return false;
        }
    }
    true
}
