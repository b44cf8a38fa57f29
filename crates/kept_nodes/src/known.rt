//! What the metadata of a primary has the next session take as marked.
ghost use Rattle.std.specs.Prelude.{◌≡◌, ◌+◌, ◌*◌, ◌/◌, ◌<◌, ◌≤◌, ◌==◌, ℕ, ◌||◌, length, IsTrue, IfOk, OnOk};
ghost use Rattle.bitmap.specs.Marks.{marked};
ghost use Rattle.kept_nodes.specs.Filed.{is_filed};
ghost use Rattle.kept_nodes.specs.Left.{known_in};
ghost use Rattle.metadata.specs.Says.{marked_in};

use bitmap::Bitmap;
use blocks::{Block, EXTENT_BLOCKS, Extent, MAX_RANGE, Range};
use metadata::{MAX_EXTENTS, MAX_MARKS, Metadata, MetadataFault, StableFile};
use std::alloc::Global;

/// Returns the blocks that the next session takes as marked: those that are marked, and all of an extent that is entered. It reads the
/// file in portions, and keeps no second copy of it. `NoMemory` if there is none for the bitmap; a call of the file that fails breaks
/// the metadata.
pub fn known_marks<F: StableFile>(
    alloc: Global,
    metadata: &mut Metadata<F>,
) -> Result<Bitmap, MetadataFault>
    ensures size { IfOk result (λ marks. length marks ≡ metadata.old.header.blocks) }
    ensures known { IfOk result (λ marks. IsTrue (F.faithful metadata.new.file) → (block : ℕ) → block < metadata.old.header.blocks
        → marked marks block ≡ known_in (F.seen metadata.old.file) block) }
    ensures memory { OnOk result (metadata.new ≡ record metadata.old { file = metadata.new.file }) }
    ensures seen { F.seen metadata.new.file ≡ F.seen metadata.old.file }
    ensures falls { IsTrue (F.faithful metadata.new.file) → IsTrue (F.faithful metadata.old.file) }
{
    if metadata.is_broken() {
        return Err(MetadataFault::Broken);
    }
    let blocks = metadata.header().blocks;
    let extents = metadata.extents();
    let Ok(mut known) = Bitmap::unmarked(alloc, blocks) else {
        return Err(MetadataFault::NoMemory);
    };
    add_marks(metadata, &mut known)?;
    for number in 0..extents {
        if metadata.is_entered(Extent(number)) {
            add_extent(&mut known, number);
        }
    }
    Ok(known)
}

// Marks the blocks of an extent, as many as a range may have at a time.
fn add_extent(known: &mut Bitmap, extent: u64)
    requires few { extent < MAX_EXTENTS }
    requires inside { extent * 1024 < length known.old }
    ensures size { length known.new ≡ length known.old }
    ensures marks { (block : ℕ) → block < length known.old → marked known.new block ≡ (marked known.old block || block / 1024 == extent) }
{
    let end = known.len().min((extent + 1) * EXTENT_BLOCKS);
    let mut first = extent * EXTENT_BLOCKS;
    while first < end {
        let count = MAX_RANGE.min(end - first);
        known.mark(Range {
            first: Block(first),
            count,
        });
        first += count;
    }
}

// Marks the blocks that are marked in the file. It reads the file in portions.
fn add_marks<F: StableFile>(
    metadata: &mut Metadata<F>,
    known: &mut Bitmap,
) -> Result<(), MetadataFault>
    requires size { length known.old ≡ metadata.old.header.blocks }

    ensures kept_size { length known.new ≡ length known.old }
    ensures marks { OnOk result (IsTrue (F.faithful metadata.new.file) → (block : ℕ) → block < length known.old
        → marked known.new block ≡ (marked known.old block || marked_in (F.seen metadata.old.file) block)) }
    ensures memory { OnOk result (metadata.new ≡ record metadata.old { file = metadata.new.file }) }
    ensures seen { F.seen metadata.new.file ≡ F.seen metadata.old.file }
    ensures falls { IsTrue (F.faithful metadata.new.file) → IsTrue (F.faithful metadata.old.file) }
{
    let blocks = known.len();
    let mut portion = [0u8; MAX_MARKS as usize];
    let mut first = 0;
    while first < blocks {
        let count = MAX_MARKS.min(blocks - first);
        let marks = &mut portion[..count as usize];
        metadata.marks(Block(first), marks)?;
        add_portion(known, first, marks);
        first += count;
    }
    Ok(())
}

const ZEROS: [u8; MAX_MARKS as usize] = [0; MAX_MARKS as usize];

// Marks the blocks from `first` on whose byte is not 0.
fn add_portion(known: &mut Bitmap, first: u64, marks: &[u8])
    requires inside { first + length marks.now ≤ length known.old }
    requires fits { first + length marks.now ≤ u64.MAX }
    requires few { length marks.now ≤ MAX_MARKS }
    ensures size { length known.new ≡ length known.old }
    ensures marks { (block : ℕ) → block < length known.old → marked known.new block ≡ (marked known.old block || is_filed first (length marks.now) marks.now block) }
{
    // Most portions of a large device have no mark.
    if marks == &ZEROS[..marks.len()] {
        return;
    }
    add_bytes(known, first, marks);
}

// Marks the blocks from `first` on whose byte is not 0, byte by byte.
fn add_bytes(known: &mut Bitmap, first: u64, marks: &[u8])
    requires inside { first + length marks.now ≤ length known.old }
    requires fits { first + length marks.now ≤ u64.MAX }
    ensures size { length known.new ≡ length known.old }
    ensures marks { (block : ℕ) → block < length known.old → marked known.new block ≡ (marked known.old block || is_filed first (length marks.now) marks.now block) }
{
    for (offset, mark) in marks.iter().enumerate() {
        if *mark != 0 {
            known.mark(Range {
                first: Block(first + offset as u64),
                count: 1,
            });
        }
    }
}
