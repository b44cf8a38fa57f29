//! Copying marked blocks to the peer.
ghost use Rattle.std.specs.Prelude.{◌≡◌, ◌<◌, true, IsTrue, IfErr, OnErr};
ghost use Rattle.blocks.specs.declared.outcome.Reply.TheVariants as reply;
ghost use Rattle.blocks.specs.declared.refusal.Refusal.TheVariants.{NoMemory, ReadFault};
ghost use Rattle.endpoint.specs.Calls.{is_out_of_memory};
ghost use Rattle.model.specs.LocalRuns.{FailsResync};
ghost use Rattle.primary_protocol.specs.Node.{NodeSteps};
ghost use Rattle.primary_protocol.specs.Steps.{replied};
ghost use Rattle.primary.specs.Calls.{CopiesOne};
ghost use Rattle.primary.specs.State.{node};

use crate::Primary;
use blocks::{BLOCK_BYTES, Done, FaultStore, Refusal, Store};
use bytes::Bytes;
use link::{FrameIn, FrameOut};

impl<O: FrameOut + Drop, I: FrameIn + Drop, S: Store + Drop> Primary<O, I, S> {
    /// Reads the block that the resync copies next, and appends it to the stream, in one step.
    ///
    /// `NotConnected` (12) if the end is closed; `NothingToDo` (10) if no resync runs, a block is under way, or no
    /// marked block is free; `StreamFull` (6) if the stream has 4,294,967,288 items or more; `NoMemory` (7) if there
    /// is no room for the block and its item; else `ReadFault` (14) if the disk fails. A refused call changes nothing
    /// but the disk's count of faults.
    pub fn resync_next(&mut self) -> Result<Done, Refusal>
        ensures step { CopiesOne result self.old self.new }
        ensures works { self.old.steady ≡ true → (self.new.faults ≡ self.old.faults) × (self.new.steady ≡ true) × (self.new.faithful ≡ self.old.faithful) }
        ensures falls { IsTrue self.new.faithful → IsTrue self.old.faithful }
        ensures refused { OnErr result (self.new.core ≡ self.old.core) }
        ensures out_of_memory { IfErr result (λ e. e ≡ NoMemory → (self.new.core ≡ self.old.core) × (self.new.faults ≡ self.old.faults)) }
        // Refused for any other reason it reads nothing.
        ensures idle { IfErr result (λ e. (e ≡ NoMemory → ⊥) → (e ≡ ReadFault → ⊥) → self.new ≡ self.old) }
        ensures rest { self.new ≡ record self.old {
          core = self.new.core;
          faults = self.new.faults;
          steady = self.new.steady;
          faithful = self.new.faithful;
        } }
    {
        let block = self.core.resync_block()?;
        let mut bytes = Vec::from_elem(self.alloc, 0u8, BLOCK_BYTES)?;
        match self.store.read(block, &mut bytes) {
            Ok(()) => {
                let contents = Bytes::from_vec(bytes)?;
                Ok(self.core.resync_read(block, contents))
            }
            Err(_) => Err(Refusal::ReadFault),
        }
    }
}

impl<O: FrameOut + Drop, I: FrameIn + Drop> Primary<O, I, FaultStore> {
    /// Has the disk fail the read of the block that the resync copies next, and does what `resync_next` does then:
    /// it is refused, with `ReadFault` (14) at the last. If that is the refusal, no read is armed on the disk
    /// afterwards.
    pub fn resync_fault(&mut self) -> Result<Done, Refusal>
        ensures step { NodeSteps (FailsResync (is_out_of_memory result)) (node self.old) (replied reply.Ok result) (node self.new) }
        ensures counted { IfErr result (λ e. e ≡ ReadFault → self.old.faults < self.new.faults) }
        ensures works { self.old.steady ≡ true → self.new.steady ≡ true }
        ensures rest { self.new ≡ record self.old { faults = self.new.faults; steady = self.new.steady } }
    {
        let block = self.core.resync_block()?;
        let mut bytes = Vec::from_elem(self.alloc, 0u8, BLOCK_BYTES)?;
        self.store.arm_read();
        // It is armed, so it fails.
        let _ = self.store.read(block, &mut bytes);
        Err(Refusal::ReadFault)
    }
}
