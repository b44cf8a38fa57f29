//! The secondary under its lock.
ghost use Rattle.kept_nodes.specs.Kept.{SecondaryIsKept};
ghost use Rattle.session_nodes.specs.Secondaries.{SecondaryIsHad};

use blocks::{Done, Refusal, Store};
use kept_nodes::KeptSecondary;
use link::{FrameIn, FrameOut};
use metadata::{Metadata, StableFile};
use secondary::Secondary;
use session_api::{Bell, SecondaryHalf, SecondaryProgress, SecondaryRole, Turn};
use session_nodes::Beginning;
use std::sync::{Mutex, Wait};

/// The secondary under its lock, with the metadata of its disk.
#[derive(Drop)]
pub struct LockedSecondary<
    R: Wait + Drop,
    B: Beginning,
    O: FrameOut + Drop,
    I: FrameIn + Drop,
    S: Store + Drop,
    F: StableFile,
> {
    rt: R,
    node: Mutex<KeptSecondary<B, O, I, S, F>>,
    work_bell: Bell,
    pump_bell: Bell,
}

impl<
    R: Wait + Drop,
    B: Beginning,
    O: FrameOut + Drop,
    I: FrameIn + Drop,
    S: Store + Drop,
    F: StableFile,
> LockedSecondary<R, B, O, I, S, F> {
    /// Puts an opened secondary under a lock, with its metadata.
    pub fn new(rt: R, node: KeptSecondary<B, O, I, S, F>) -> LockedSecondary<R, B, O, I, S, F> {
        LockedSecondary {
            rt,
            node: Mutex::new(node),
            work_bell: Bell::new(),
            pump_bell: Bell::new(),
        }
    }

    /// Takes the node out of its lock, with its metadata, and whether its disk is still doubted. It has a history that began as the
    /// half did, and whose connections all used its ends. The metadata has the identifiers that a stop has to leave.
    pub fn into_parts(self) -> (Secondary<O, I, S>, Option<Metadata<F>>, bool)
        ensures had { SecondaryIsHad B.opening result.0 }
        ensures kept { SecondaryIsKept B.opening result.0 result.1 result.2 }
    {
        self.node.into_inner().into_parts()
    }
}

impl<
    R: Wait + Drop,
    B: Beginning,
    O: FrameOut + Drop,
    I: FrameIn + Drop,
    S: Store + Drop,
    F: StableFile,
> SecondaryHalf for LockedSecondary<R, B, O, I, S, F> {
    ghost use Rattle.kept_nodes.specs.Shown.{SecondaryHasShown};

    ghost shows = { SecondaryHasShown B.opening };

    fn receive(&self) -> Result<Done, Refusal> {
        self.node.lock(&self.rt).receive()
    }

    fn ack_out(&self) -> Result<Done, Refusal> {
        self.node.lock(&self.rt).ack_out()
    }

    fn turn(&self, role: SecondaryRole) -> Turn {
        self.node.lock(&self.rt).turn(role)
    }

    fn try_turn(&self, role: SecondaryRole) -> Option<Turn> {
        let mut node = self.node.try_lock()?;
        Some(node.turn(role))
    }

    fn close(&self) {
        let _ = self.node.lock(&self.rt).close();
    }

    fn close_lost(&self, connection: u32) {
        self.node.lock(&self.rt).close_lost(connection);
    }

    fn reopen(&self, number: u32) -> Result<(), Refusal> {
        self.node.lock(&self.rt).reopen(number)
    }

    fn progress(&self) -> SecondaryProgress {
        self.node.lock(&self.rt).progress()
    }

    fn work_bell(&self) -> &Bell {
        &self.work_bell
    }

    fn pump_bell(&self) -> &Bell {
        &self.pump_bell
    }
}
