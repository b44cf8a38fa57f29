//! The marks of a first session over two disks.
ghost use Rattle.std.specs.Prelude.{ℕ, ◌≡◌, ◌⊎◌, ◌<◌, ◌&&◌, false, nat_lt, not, length, slice_get, IfErr, IfOk};
ghost use Rattle.bitmap.specs.Marks.{marked};
ghost use Rattle.blocks.specs.declared.refusal.Refusal.TheVariants.{BadSetting, NoMemory, ReadFault};
ghost use Rattle.model.specs.Headline.{Cover};
ghost use Rattle.model.specs.Pair.{same_block};
ghost use Rattle.program_values.specs.declared.serve_options.FirstStart.TheVariants.{Compare};
ghost use Rattle.disk_pair.specs.Disks.{AreFaithful, WereRead};

use crate::Disks;
use crate::compare::mark_differing;
use bitmap::Bitmap;
use blocks::{MAX_DEVICE_BLOCKS, Refusal, Store};
use program_values::FirstStart;
use std::alloc::Global;
use std::io::Write;

/// Returns the marks of a first session over two disks of this many blocks: each block on which they differ, if a comparison is asked
/// for, and else none. `BadSetting` (15) if a disk has another size, or no device is so large, `NoMemory` (7) if there is none for the
/// marks, `ReadFault` (14) if a disk fails a read.
pub fn first_marks<D: Store, E: Write>(
    alloc: Global,
    blocks: u32,
    how: FirstStart,
    disks: &mut Disks<D>,
    err: &mut E,
) -> Result<Bitmap, Refusal>
    ensures size { IfOk result (λ marks. length marks ≡ blocks) }
    ensures compared { IfOk result (λ marks. how ≡ Compare → AreFaithful disks.new → (block : ℕ) → block < blocks
        → marked marks block ≡ not (same_block (slice_get disks.old.local block) (slice_get disks.old.peer block))) }
    ensures cover { IfOk result (λ marks. how ≡ Compare → AreFaithful disks.new
        → Cover (λ block. nat_lt block blocks && marked marks block) (slice_get disks.new.local) (slice_get disks.new.peer)) }
    ensures unmarked { IfOk result (λ marks. (how ≡ Compare → ⊥) → (block : ℕ) → marked marks block ≡ false) }
    ensures read { WereRead disks.old disks.new }
    ensures refused { IfErr result (λ e. (e ≡ BadSetting) ⊎ ((e ≡ NoMemory) ⊎ (e ≡ ReadFault))) }
{
    if blocks > MAX_DEVICE_BLOCKS
        || disks.local.blocks() != blocks
        || disks.peer.blocks() != blocks
    {
        return Err(Refusal::BadSetting);
    }
    let mut marks = Bitmap::unmarked(alloc, u64::from(blocks))?;
    if how == FirstStart::Compare {
        mark_differing(disks, &mut marks, blocks, err)?;
    }
    Ok(marks)
}
