//! Writes of the local disk.
ghost use Rattle.std.specs.Prelude.{◌≡◌, ◌<◌, true, OnOk};
ghost use Rattle.blocks.specs.declared.outcome.Reply.TheVariants as reply;
ghost use Rattle.model.specs.Pair.{local_fault_kept};
ghost use Rattle.model.specs.Primary.{PrimaryHistory, next_local};
ghost use Rattle.primary_protocol.specs.Node.{IsStep, NodeHas};
ghost use Rattle.primary_protocol.specs.Steps.{replied};
ghost use Rattle.primary.specs.Calls.{WritesOne};
ghost use Rattle.primary.specs.State.{node};

use crate::Primary;
use blocks::{Done, FaultStore, Refusal, Store};
use link::{FrameIn, FrameOut};

impl<O: FrameOut + Drop, I: FrameIn + Drop, S: Store + Drop> Primary<O, I, S> {
    /// Returns the lowest number of a write that waits for the disk. It takes no memory.
    pub fn next_local(&self) -> Option<u64>
        ensures { (h : PrimaryHistory) → NodeHas (node self.now) h → result ≡ next_local h }
    {
        self.core.next()
    }

    /// Has the disk do write `number`. If the disk fails, each block of the write has its old or its new contents,
    /// they are marked, and the write is never completed.
    ///
    /// `UnknownJob` (16) if the write does not wait for the disk. It takes no memory.
    pub fn local(&mut self, number: u64) -> Result<Done, Refusal>
        ensures step { WritesOne number result self.old self.new }
        ensures works { self.old.steady ≡ true → (self.new.faults ≡ self.old.faults) × (self.new.steady ≡ true) }
        ensures rest { self.new ≡ record self.old {
          core = self.new.core;
          disk = self.new.disk;
          faults = self.new.faults;
          steady = self.new.steady;
        } }
    {
        let write = self.core.start(number)?;
        Ok(match self.store.write(write.range(), write.contents()) {
            Ok(()) => self.core.done(number),
            Err(_) => self.core.failed(number),
        })
    }
}

impl<O: FrameOut + Drop, I: FrameIn + Drop> Primary<O, I, FaultStore> {
    /// Has the disk fail write `number` after its first `kept` blocks, and does what `local` does then. Unless it is
    /// refused, no write is armed on the disk afterwards.
    ///
    /// `UnknownJob` (16) as for `local`, else `BadRange` (1) if the write has fewer blocks. It takes no memory.
    pub fn local_fault(&mut self, number: u64, kept: u64) -> Result<Done, Refusal>
        ensures step { IsStep (local_fault_kept number kept) (node self.old) (replied reply.Ok result) (node self.new) }
        ensures counted { OnOk result (self.old.faults < self.new.faults) }
        ensures works { self.old.steady ≡ true → self.new.steady ≡ true }
        ensures rest { self.new ≡ record self.old {
          core = self.new.core;
          disk = self.new.disk;
          faults = self.new.faults;
          steady = self.new.steady;
        } }
    {
        let write = self.core.start(number)?;
        if kept > write.range().count {
            return Err(Refusal::BadRange);
        }
        self.store.arm(kept);
        // It is armed, so it fails.
        let _ = self.store.write(write.range(), write.contents());
        Ok(self.core.failed(number))
    }
}
