//! The primary under its lock.
ghost use Rattle.std.specs.Prelude.{Bool};
ghost use Rattle.kept_nodes.specs.Kept.{PrimaryIsKept};
ghost use Rattle.session_nodes.specs.Primaries.{PrimaryIsHad};
ghost use Rattle.told_nodes.specs.Told.{IsTold};

use blocks::{ConnectionWords, Done, Refusal, Store};
use bytes::Bytes;
use link::{FrameIn, FrameOut};
use metadata::{Metadata, StableFile};
use primary::{Primary, Receipt};
use session_api::{Bell, CalledHalf, PrimaryHalf, PrimaryProgress, PrimaryRole, Turn};
use session_nodes::Beginning;
use std::sync::{Mutex, MutexGuard, Wait};
use std::thread;
use told::{Caller, ToldLog};
use told_nodes::ToldPrimary;

/// How often a thread lets others go on before it sleeps until the lock is free.
const YIELDS: u32 = 20;

/// The primary under its lock, with the metadata of its disk and the log of what its callers were told.
#[derive(Drop)]
pub struct LockedPrimary<
    R: Wait + Drop,
    B: Beginning,
    O: FrameOut + Drop,
    I: FrameIn + Drop,
    S: Store + Drop,
    F: StableFile,
> {
    rt: R,
    node: Mutex<ToldPrimary<B, O, I, S, F>>,
    work_bell: Bell,
    writers_bell: Bell,
    pump_bell: Bell,
}

impl<
    R: Wait + Drop,
    B: Beginning,
    O: FrameOut + Drop,
    I: FrameIn + Drop,
    S: Store + Drop,
    F: StableFile,
> LockedPrimary<R, B, O, I, S, F> {
    /// Puts an opened primary under a lock, with its metadata and the log of what its callers were told.
    pub fn new(rt: R, node: ToldPrimary<B, O, I, S, F>) -> LockedPrimary<R, B, O, I, S, F> {
        LockedPrimary {
            rt,
            node: Mutex::new(node),
            work_bell: Bell::new(),
            writers_bell: Bell::new(),
            pump_bell: Bell::new(),
        }
    }

    /// Takes the node out of its lock, with its metadata and the log. The node has a history that began as the half did, in which each
    /// connection used the half's ends; the metadata says what a stop has to leave of it. All of the log was told on the way of one history
    /// of the node.
    pub fn into_parts(self) -> (Primary<O, I, S>, Option<Metadata<F>>, ToldLog<B>)
        ensures told { IsTold B.opening result.2.log result.0 }
        ensures had { PrimaryIsHad B.opening result.0 }
        ensures kept { (owes_all : Bool) × PrimaryIsKept F.seen F.may_leave F.faithful B.opening result.0 result.1 owes_all }
    {
        self.node.into_inner().into_parts()
    }

    // Locks the node. Who has the lock most often needs it for less time than a thread takes to fall asleep and to be woken, so others go on
    // for a while before this one sleeps.
    fn locked(&self) -> MutexGuard<'_, ToldPrimary<B, O, I, S, F>> {
        for _ in 0..YIELDS {
            if let Some(node) = self.node.try_lock() {
                return node;
            }
            thread::yield_now();
        }
        self.node.lock(&self.rt)
    }

    // Wakes the writers after a turn, if it concerns them.
    fn wake_writers(&self, turn: Turn) {
        if turn.wakes_writers {
            self.writers_bell.ring_all(&self.rt);
        }
    }
}

impl<
    R: Wait + Drop,
    B: Beginning,
    O: FrameOut + Drop,
    I: FrameIn + Drop,
    S: Store + Drop,
    F: StableFile,
> PrimaryHalf for LockedPrimary<R, B, O, I, S, F> {
    ghost use Rattle.kept_nodes.specs.Shown.{PrimaryHasShown};

    ghost shows = { PrimaryHasShown B.opening };

    fn send(&self) -> Result<Done, Refusal> {
        self.locked().send()
    }

    fn ack_in(&self) -> Result<Done, Refusal> {
        self.locked().ack_in()
    }

    fn turn(&self, role: PrimaryRole) -> Turn {
        let turn = self.locked().turn(role);
        self.wake_writers(turn);
        turn
    }

    fn try_turn(&self, role: PrimaryRole) -> Option<Turn> {
        let mut node = self.node.try_lock()?;
        let turn = node.turn(role);
        drop(node);
        self.wake_writers(turn);
        Some(turn)
    }

    fn close(&self) {
        self.node.lock(&self.rt).close();
        self.writers_bell.ring_all(&self.rt);
    }

    fn close_lost(&self, connection: u32) {
        self.node.lock(&self.rt).close_lost(connection);
        self.writers_bell.ring_all(&self.rt);
    }

    fn reopen(&self, words: ConnectionWords) -> Result<u32, Refusal> {
        self.node.lock(&self.rt).reopen(words)
    }

    fn progress(&self) -> PrimaryProgress {
        self.node.lock(&self.rt).progress()
    }

    fn prepare_leaving(&self, most: u64) -> u64 {
        self.node.lock(&self.rt).prepare_leaving(most)
    }

    fn leave_prepared(&self) -> u64 {
        self.node.lock(&self.rt).leave_prepared()
    }

    fn work_bell(&self) -> &Bell {
        &self.work_bell
    }

    fn writers_bell(&self) -> &Bell {
        &self.writers_bell
    }

    fn pump_bell(&self) -> &Bell {
        &self.pump_bell
    }
}

impl<
    R: Wait + Drop,
    B: Beginning,
    O: FrameOut + Drop,
    I: FrameIn + Drop,
    S: Store + Drop,
    F: StableFile,
> CalledHalf for LockedPrimary<R, B, O, I, S, F> {
    type Name = B;

    fn submit(&self, me: &mut Caller<B>, first: u64, bytes: &Bytes) -> Result<u64, Refusal> {
        self.locked().submit(me, first, bytes)
    }

    fn submit_within(
        &self,
        me: &mut Caller<B>,
        block: u64,
        from: u32,
        bytes: &Bytes,
    ) -> Result<(u64, Bytes), Refusal> {
        self.locked().submit_within(me, block, from, bytes)
    }

    fn take_completed(&self, me: &mut Caller<B>, number: u64) -> Result<Receipt, Refusal> {
        self.locked().take_completed(me, number)
    }

    fn read(&self, me: &mut Caller<B>, first: u64, count: u64) -> Result<Vec<u8>, Refusal> {
        self.locked().read(me, first, count)
    }
}
