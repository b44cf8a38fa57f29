//! The comparison of two disks.
ghost use Rattle.std.specs.Prelude.{◌≡◌, ◌⊎◌, ◌<◌, length, not, true, IsTrue, IfErr, IfOk, OnOk, IsOk};
ghost use Rattle.blocks.specs.declared.block.TheConstants.{BLOCK_BYTES};
ghost use Rattle.blocks.specs.declared.refusal.Refusal.TheVariants.{ReadFault};
ghost use Rattle.model.specs.Pair.{same_block};
ghost use Rattle.model.specs.Primary.{PrimaryHistory, local_map};
ghost use Rattle.model.specs.Secondary.{SecondaryHistory, secondary_map};
ghost use Rattle.model.specs.Settlement.{unmarked_differences};
ghost use Rattle.settlement.specs.Reads.{is_there};
ghost use Rattle.primary.specs.State.{node as primary_node};
ghost use Rattle.primary_protocol.specs.Node.{NodeHas as PrimaryHas};
ghost use Rattle.secondary.specs.State.{node as secondary_node};
ghost use Rattle.secondary_protocol.specs.Node.{NodeHas as SecondaryHas};

use blocks::{BLOCK_BYTES, Block, Refusal, Store};
use link::{FrameIn, FrameOut};
use primary::Primary;
use secondary::Secondary;

/// Returns on how many unmarked blocks the disks differ. `ReadFault` (14) if a disk fails a read.
pub(crate) fn unmarked<
    O: FrameOut + Drop,
    I: FrameIn + Drop,
    S: Store + Drop,
    P: FrameOut + Drop,
    J: FrameIn + Drop,
    T: Store + Drop,
>(primary: &mut Primary<O, I, S>, secondary: &mut Secondary<P, J, T>) -> Result<u32, Refusal>
    ensures count { IfOk result (λ n. IsTrue primary.new.faithful → IsTrue secondary.new.faithful → (p : PrimaryHistory) (s : SecondaryHistory) → PrimaryHas (primary_node primary.old) p → SecondaryHas (secondary_node secondary.old) s
        → n ≡ unmarked_differences p s) }
    ensures primary { primary.new ≡ record primary.old { faults = primary.new.faults; steady = primary.new.steady; faithful = primary.new.faithful } }
    ensures secondary { secondary.new ≡ record secondary.old { faults = secondary.new.faults; steady = secondary.new.steady; faithful = secondary.new.faithful } }
    ensures falls { (IsTrue primary.new.faithful → IsTrue primary.old.faithful) × (IsTrue secondary.new.faithful → IsTrue secondary.old.faithful) }
    ensures sure { primary.old.steady ≡ true → secondary.old.steady ≡ true
        → (primary.new.faithful ≡ primary.old.faithful) × (secondary.new.faithful ≡ secondary.old.faithful) }
    ensures refused { IfErr result (λ e. (e ≡ ReadFault) × ((primary.old.faults < primary.new.faults) ⊎ (secondary.old.faults < secondary.new.faults))) }
    ensures uncounted { OnOk result ((primary.new.faults ≡ primary.old.faults) × (secondary.new.faults ≡ secondary.old.faults)) }
    ensures works { primary.old.steady ≡ true → secondary.old.steady ≡ true → (primary.new.steady ≡ true) × (secondary.new.steady ≡ true) × IsOk result }
{
    let mut local = [0u8; BLOCK_BYTES];
    let mut peer = [0u8; BLOCK_BYTES];
    let blocks = primary.settings().blocks.max(secondary.settings().blocks);
    let mut count = 0u32;
    for number in 0..blocks {
        let block = Block(u64::from(number));
        if differs(primary, secondary, block, &mut local, &mut peer)? && !primary.is_marked(block) {
            count += 1;
        }
    }
    Ok(count)
}

// Returns whether the disks differ in a block; each buffer has room for one block. A block that only one of them
// has differs.
fn differs<
    O: FrameOut + Drop,
    I: FrameIn + Drop,
    S: Store + Drop,
    P: FrameOut + Drop,
    J: FrameIn + Drop,
    T: Store + Drop,
>(
    primary: &mut Primary<O, I, S>,
    secondary: &mut Secondary<P, J, T>,
    block: Block,
    local: &mut [u8],
    peer: &mut [u8],
) -> Result<bool, Refusal>
    requires local { length local.old ≡ BLOCK_BYTES }
    requires peer { length peer.old ≡ BLOCK_BYTES }
    ensures differs { IfOk result (λ differs. IsTrue primary.new.faithful → IsTrue secondary.new.faithful → (p : PrimaryHistory) (s : SecondaryHistory) → PrimaryHas (primary_node primary.old) p → SecondaryHas (secondary_node secondary.old) s
        → differs ≡ not (same_block (local_map p block.0) (secondary_map s block.0))) }
    ensures primary { primary.new ≡ record primary.old { faults = primary.new.faults; steady = primary.new.steady; faithful = primary.new.faithful } }
    ensures secondary { secondary.new ≡ record secondary.old { faults = secondary.new.faults; steady = secondary.new.steady; faithful = secondary.new.faithful } }
    ensures falls { (IsTrue primary.new.faithful → IsTrue primary.old.faithful) × (IsTrue secondary.new.faithful → IsTrue secondary.old.faithful) }
    ensures sure { primary.old.steady ≡ true → secondary.old.steady ≡ true
        → (primary.new.faithful ≡ primary.old.faithful) × (secondary.new.faithful ≡ secondary.old.faithful) }
    ensures refused { IfErr result (λ e. (e ≡ ReadFault) × ((primary.old.faults < primary.new.faults) ⊎ (secondary.old.faults < secondary.new.faults))) }
    ensures uncounted { OnOk result ((primary.new.faults ≡ primary.old.faults) × (secondary.new.faults ≡ secondary.old.faults)) }
    ensures works { primary.old.steady ≡ true → secondary.old.steady ≡ true → (primary.new.steady ≡ true) × (secondary.new.steady ≡ true) × IsOk result }
{
    let has_local = is_there(primary.read_block(block, local))?;
    let has_peer = is_there(secondary.read_block(block, peer))?;
    if has_local && has_peer {
        return Ok(*local != *peer);
    }
    Ok(has_local || has_peer)
}

// Returns whether a disk has the block that was read. `ReadFault` (14) if the read failed.
fn is_there(read: Result<(), Refusal>) -> Result<bool, Refusal>
    ensures { result ≡ is_there read }
{
    match read {
        Ok(()) => Ok(true),
        Err(Refusal::BadRange) => Ok(false),
        Err(refusal) => Err(refusal),
    }
}
