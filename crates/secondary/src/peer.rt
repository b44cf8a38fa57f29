//! Applying items to the disk.
ghost use Rattle.std.specs.Prelude.{◌≡◌, ◌<◌, true, OnOk};
ghost use Rattle.model.specs.Pair.{peer_fault_kept};
ghost use Rattle.secondary_protocol.specs.Node.{IsStep};
ghost use Rattle.secondary_protocol.specs.Steps.{replied};
ghost use Rattle.secondary.specs.Calls.{AppliesOne};
ghost use Rattle.secondary.specs.State.{node};

use crate::Secondary;
use blocks::{Done, FaultStore, Refusal, Store};
use link::{FrameIn, FrameOut};

impl<O: FrameOut + Drop, I: FrameIn + Drop, S: Store + Drop> Secondary<O, I, S> {
    /// Has the disk do the item of a place, and makes due what is to be acknowledged then. If the disk fails, each
    /// block of the item has its old or its new contents, the end closes, and the items of later epochs are
    /// dropped.
    ///
    /// `UnknownJob` (16) if the place is not pending, else `EpochOpen` (17) if an item of an earlier epoch is. It
    /// takes no memory.
    pub fn peer(&mut self, place: u32) -> Result<Done, Refusal>
        ensures step { AppliesOne place result self.old self.new }
        ensures works { self.old.steady ≡ true → (self.new.faults ≡ self.old.faults) × (self.new.steady ≡ true) }
        ensures rest { self.new ≡ record self.old {
          core = self.new.core;
          disk = self.new.disk;
          faults = self.new.faults;
          steady = self.new.steady;
        } }
    {
        let item = self.core.start(place)?;
        match self.store.write(item.range(), item.contents().as_slice()) {
            Ok(()) => Ok(self.core.done(place)),
            Err(_) => Ok(self.core.failed(place)),
        }
    }
}

impl<O: FrameOut + Drop, I: FrameIn + Drop> Secondary<O, I, FaultStore> {
    /// Has the disk fail the item of a place after its first `kept` blocks, and does what `peer` does then. Unless it
    /// is refused, no write is armed on the disk afterwards.
    ///
    /// `UnknownJob` (16) and `EpochOpen` (17) as for `peer`, else `BadRange` (1) if the item has fewer blocks. It
    /// takes no memory.
    pub fn peer_fault(&mut self, place: u32, kept: u64) -> Result<Done, Refusal>
        ensures step { IsStep (peer_fault_kept place kept) (node self.old) (replied (λ done. done) result) (node self.new) }
        ensures counted { OnOk result (self.old.faults < self.new.faults) }
        ensures works { self.old.steady ≡ true → self.new.steady ≡ true }
        ensures rest { self.new ≡ record self.old {
          core = self.new.core;
          disk = self.new.disk;
          faults = self.new.faults;
          steady = self.new.steady;
        } }
    {
        let failing = self.core.start(place)?;
        if kept > failing.range().count {
            return Err(Refusal::BadRange);
        }
        self.store.arm(kept);
        let _ = self
            .store
            .write(failing.range(), failing.contents().as_slice());
        Ok(self.core.failed(place))
    }
}
