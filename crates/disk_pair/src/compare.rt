//! The comparison of two disks.
ghost use Rattle.std.specs.Prelude.{ℕ, ◌≡◌, ◌<◌, ◌≤◌, false, ◌&&◌, ◌||◌, not, nat_le, if◌then◌else◌, is_some, length, slice_get, IfErr, IfOk, IfSome, IsTrue};
ghost use Rattle.std.specs.Prelude.{OnErr, OnOk};
ghost use Rattle.bitmap.specs.Marks.{marked};
ghost use Rattle.blocks.specs.declared.block.TheConstants.{BLOCK_BYTES};
ghost use Rattle.blocks.specs.declared.refusal.Refusal.TheVariants.{ReadFault};
ghost use Rattle.model.specs.Pair.{same_block};
ghost use Rattle.disk_pair.specs.Disks.{AreFaithful, WereRead, unmarked_between};

use crate::Disks;
use bitmap::Bitmap;
use blocks::{BLOCK_BYTES, Block, MAX_BLOCKS, Range, Refusal, Store};
use std::io::Write;

/// After how many blocks a comparison says how far it is: 1 GiB.
const REPORT_BLOCKS: u32 = MAX_BLOCKS;

/// Returns whether both disks have the same blocks. Shows its progress on `err` if they are large. `ReadFault` (14) if a disk
/// fails a read.
pub fn are_alike<D: Store, E: Write>(disks: &mut Disks<D>, err: &mut E) -> Result<bool, Refusal>
    ensures alike { IfOk result (λ same. AreFaithful disks.new → IsTrue same → disks.old.local ≡ disks.old.peer) }
    ensures found { IfOk result (λ same. AreFaithful disks.new → disks.old.local ≡ disks.old.peer → IsTrue same) }
    ensures failed { OnErr result (disks.new.local_faults ≡ disks.old.local_faults → disks.new.peer_faults ≡ disks.old.peer_faults → ⊥) }
    ensures read { WereRead disks.old disks.new }
{
    let mut ours = [0u8; BLOCK_BYTES];
    let mut theirs = [0u8; BLOCK_BYTES];
    let blocks = disks.local.blocks();
    if disks.peer.blocks() != blocks {
        return Ok(false);
    }
    for number in 0..blocks {
        tell_progress(number, blocks, err);
        let block = Block(u64::from(number));
        if !is_alike(disks, block, &mut ours, &mut theirs)? {
            return Ok(false);
        }
    }
    Ok(true)
}

/// Marks each of the first `blocks` blocks on which the disks differ, in a bitmap without marks. Shows its progress on `err` if the disks
/// are large. `ReadFault` (14) if a disk fails a read.
pub fn mark_differing<D: Store, E: Write>(
    disks: &mut Disks<D>,
    marks: &mut Bitmap,
    blocks: u32,
    err: &mut E,
) -> Result<(), Refusal>
    requires fits { blocks ≤ length marks.old }
    requires clear { (block : ℕ) → marked marks.old block ≡ false }
    ensures size { length marks.new ≡ length marks.old }
    ensures marks { OnOk result (AreFaithful disks.new → (block : ℕ) → block < blocks
        → marked marks.new block ≡ not (same_block (slice_get disks.old.local block) (slice_get disks.old.peer block))) }
    ensures read { WereRead disks.old disks.new }
    ensures refused { IfErr result (λ e. e ≡ ReadFault) }
{
    let mut ours = [0u8; BLOCK_BYTES];
    let mut theirs = [0u8; BLOCK_BYTES];
    for number in 0..blocks {
        tell_progress(number, blocks, err);
        let block = Block(u64::from(number));
        if !is_alike(disks, block, &mut ours, &mut theirs)? {
            marks.mark(Range {
                first: block,
                count: 1,
            });
        }
    }
    Ok(())
}

/// Returns on how many of the first `blocks` blocks the disks differ without a mark. Shows its progress on `err` if the disks
/// are large. `ReadFault` (14) if a disk fails a read.
pub fn unmarked_blocks<D: Store, E: Write>(
    disks: &mut Disks<D>,
    marks: &Bitmap,
    blocks: u32,
    err: &mut E,
) -> Result<u32, Refusal>
    ensures count { IfOk result (λ n. AreFaithful disks.new → n ≡ unmarked_between marks.now disks.old.local disks.old.peer blocks) }
    ensures read { WereRead disks.old disks.new }
    ensures refused { IfErr result (λ e. e ≡ ReadFault) }
{
    let mut ours = [0u8; BLOCK_BYTES];
    let mut theirs = [0u8; BLOCK_BYTES];
    let mut count = 0u32;
    for number in 0..blocks {
        tell_progress(number, blocks, err);
        let block = Block(u64::from(number));
        let is_alike = is_alike(disks, block, &mut ours, &mut theirs)?;
        count += unmarked_one(is_alike, marks.is_marked(block));
    }
    Ok(count)
}

/// What the comparison at a server's end came to.
#[derive(Clone, Copy, Debug, PartialEq, Eq)]
pub struct LastComparison {
    /// On how many blocks the disks differ without a mark, if they were compared.
    pub unmarked: Option<u32>,
    /// Whether a disk failed a read, so that they were not.
    pub is_unread: bool,
}

/// Compares the disks if that is asked for, or if they have at most 262,144 blocks.
pub fn compare_at_end<D: Store, E: Write>(
    is_asked: bool,
    disks: &mut Disks<D>,
    marks: &Bitmap,
    blocks: u32,
    err: &mut E,
) -> LastComparison
    ensures compares { result.is_unread ≡ false → is_some result.unmarked ≡ (is_asked || nat_le blocks 262144) }
    ensures count { IfSome result.unmarked (λ n. AreFaithful disks.new → n ≡ unmarked_between marks.now disks.new.local disks.new.peer blocks) }
    ensures read { WereRead disks.old disks.new }
{
    if !is_asked && blocks > MAX_BLOCKS {
        return LastComparison {
            unmarked: None,
            is_unread: false,
        };
    }
    match unmarked_blocks(disks, marks, blocks, err) {
        Ok(count) => LastComparison {
            unmarked: Some(count),
            is_unread: false,
        },
        Err(_) => LastComparison {
            unmarked: None,
            is_unread: true,
        },
    }
}

// Returns 1 for a block that differs and has no mark, else 0.
fn unmarked_one(is_alike: bool, is_marked: bool) -> u32
    ensures { result ≡ if not is_alike && not is_marked then 1 else 0 }
{
    if is_alike || is_marked { 0 } else { 1 }
}

// Returns whether both disks have this block with the same bytes, or neither has it; each buffer has room for a block.
// `ReadFault` (14) if a disk fails the read.
fn is_alike<D: Store>(
    disks: &mut Disks<D>,
    block: Block,
    ours: &mut [u8],
    theirs: &mut [u8],
) -> Result<bool, Refusal>
    requires ours { length ours.old ≡ BLOCK_BYTES }
    requires theirs { length theirs.old ≡ BLOCK_BYTES }
    ensures alike { IfOk result (λ same. AreFaithful disks.new → same ≡ same_block (slice_get disks.old.local block.0) (slice_get disks.old.peer block.0)) }
    ensures uncounted { OnOk result ((disks.new.local_faults ≡ disks.old.local_faults) × (disks.new.peer_faults ≡ disks.old.peer_faults)) }
    ensures failed { OnErr result (disks.new.local_faults ≡ disks.old.local_faults → disks.new.peer_faults ≡ disks.old.peer_faults → ⊥) }
    ensures read { WereRead disks.old disks.new }
    ensures refused { IfErr result (λ e. e ≡ ReadFault) }
{
    let has_local = block.0 < u64::from(disks.local.blocks());
    let has_peer = block.0 < u64::from(disks.peer.blocks());
    if !has_local || !has_peer {
        return Ok(has_local == has_peer);
    }
    if disks.local.read(block, ours).is_err() {
        return Err(Refusal::ReadFault);
    }
    if disks.peer.read(block, theirs).is_err() {
        return Err(Refusal::ReadFault);
    }
    Ok(*ours == *theirs)
}

// Writes a line if a comparison has come to another GiB.
fn tell_progress<E: Write>(done: u32, blocks: u32, err: &mut E) {
    if done > 0 && done % REPORT_BLOCKS == 0 {
        let _ = writeln!(
            err,
            "compared {} of {} GiB",
            done / REPORT_BLOCKS,
            blocks.div_ceil(REPORT_BLOCKS)
        );
    }
}
