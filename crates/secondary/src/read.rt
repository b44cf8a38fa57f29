//! Reading the disk.
ghost use Rattle.std.specs.Prelude.{◌≡◌, ◌≢◌, ◌⊎◌, ◌+◌, ◌*◌, ◌/◌, ◌<◌, ◌≤◌, Some, length, true, false, IsTrue, IfErr, IsOk, OnOk, OnErr, IfOk};
ghost use Rattle.blocks.specs.declared.block.TheConstants.{BLOCK_BYTES};
ghost use Rattle.blocks.specs.declared.refusal.Refusal.TheVariants.{BadRange, NoMemory, ReadFault};
ghost use Rattle.model.specs.Contents.{IsRead, is_range};
ghost use Rattle.model.specs.Secondary.{SecondaryHistory, secondary_map};
ghost use Rattle.secondary_protocol.specs.Node.{NodeHas};
ghost use Rattle.secondary.specs.State.{node};

use crate::Secondary;
use blocks::{BLOCK_BYTES, Block, Range, Refusal, Store};
use link::{FrameIn, FrameOut};

impl<O: FrameOut + Drop, I: FrameIn + Drop, S: Store + Drop> Secondary<O, I, S> {
    /// Reads a block of the disk into a buffer of 4,096 bytes.
    ///
    /// `BadRange` (1) past the disk's end, else `ReadFault` (14) if the disk fails; the buffer's contents are then
    /// of no use. It takes no memory.
    pub fn read_block(&mut self, block: Block, buffer: &mut [u8]) -> Result<(), Refusal>
        requires { length buffer.old ≡ BLOCK_BYTES }
        ensures read { OnOk result (IsTrue self.new.faithful → (h : SecondaryHistory) → NodeHas (node self.old) h → secondary_map h block.0 ≡ Some buffer.new) }
        ensures rest { self.new ≡ record self.old { faults = self.new.faults; steady = self.new.steady; faithful = self.new.faithful } }
        ensures falls { IsTrue self.new.faithful → IsTrue self.old.faithful }
        ensures works { self.old.steady ≡ true → (self.new ≡ self.old) × IfErr result (λ e. e ≡ BadRange) }
        ensures uncounted { OnOk result (self.new.faults ≡ self.old.faults) }
        ensures refused { IfErr result (λ e. ((e ≡ BadRange) × (length self.old.disk ≤ block.0) × (self.new.faults ≡ self.old.faults))
            ⊎ ((e ≡ ReadFault) × (block.0 < length self.old.disk) × (self.old.faults < self.new.faults))) }
    {
        if block.0 >= u64::from(self.store.blocks()) {
            return Err(Refusal::BadRange);
        }
        match self.store.read(block, buffer) {
            Ok(()) => Ok(()),
            Err(_) => Err(Refusal::ReadFault),
        }
    }

    /// Reads `count` blocks of the disk, from block `first` on: 1 to 32 inside the device and inside one extent.
    ///
    /// `BadRange` (1) if they are not that, else `NoMemory` (7) if there is no room for their bytes, else
    /// `ReadFault` (14) if the disk fails.
    pub fn read(&mut self, first: u64, count: u64) -> Result<Vec<u8>, Refusal>
        ensures read { IfOk result (λ bytes. IsTrue self.new.faithful → (h : SecondaryHistory) → NodeHas (node self.old) h → IsRead (secondary_map h) first count bytes.items) }
        ensures within { OnOk result (is_range self.old.core.settings first count ≡ true) }
        ensures rest { self.new ≡ record self.old { faults = self.new.faults; steady = self.new.steady; faithful = self.new.faithful } }
        ensures falls { IsTrue self.new.faithful → IsTrue self.old.faithful }
        ensures works { self.old.steady ≡ true → self.new.steady ≡ true }
        // A steady disk does not fail, and nothing changes.
        ensures steadily { self.old.steady ≡ true → (self.new ≡ self.old) × IfErr result (λ e. e ≢ ReadFault) }
        ensures uncounted { OnOk result (self.new.faults ≡ self.old.faults) }
        ensures refused { IfErr result (λ e. ((e ≡ BadRange) × (is_range self.old.core.settings first count ≡ false) × (self.new.faults ≡ self.old.faults))
            ⊎ (((e ≡ NoMemory) × (is_range self.old.core.settings first count ≡ true) × (self.new.faults ≡ self.old.faults))
            ⊎ ((e ≡ ReadFault) × (is_range self.old.core.settings first count ≡ true) × (self.old.faults < self.new.faults)))) }
    {
        let range = Range::new(first, count, self.core.settings().blocks)?;
        let mut bytes = Vec::from_elem(self.alloc, 0u8, range.count as usize * BLOCK_BYTES)?;
        match self.store.read_blocks(range.first, &mut bytes) {
            Ok(()) => Ok(bytes),
            Err(_) => Err(Refusal::ReadFault),
        }
    }
}
