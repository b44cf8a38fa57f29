//! A running session as a device.
ghost use Rattle.std.specs.Prelude.{◌≡◌, ◌⊎◌, ◌+◌, ◌<◌, ◌≤◌, ◌∷◌, ◌++◌, [], true, List, ℕ, length, IfErr, IfOk, OnErr};
ghost use Rattle.blocks.specs.declared.block.TheConstants.{BLOCK_BYTES};
ghost use Rattle.blocks.specs.declared.refusal.Refusal.TheVariants.{LocalFault, ReadFault};
ghost use Rattle.model.specs.CallRefusals.{begin_refuses, complete_refuses, reopen_refuses};
ghost use Rattle.device_parts.specs.Places.{laid_over};
ghost use Rattle.told.specs.Log.{Extends};
ghost use Rattle.told.specs.declared.entry.Told.TheVariants.{Accepted, Given, Patched};

use crate::shared::{Shared, Transport};
use blocks::{BLOCK_BYTES, ConnectionWords, Refusal};
use bytes::Bytes;
use primary::Receipt;
use session_api::{
    Begun, CalledHalf, Device, PrimaryHalf, PrimaryProgress, PrimaryRole, Progress, SecondaryHalf,
};
use std::alloc::Global;
use std::sync::{Arc, Wait};
use std::time::Clock;
use told::Caller;

/// A running session over two halves. Any number of threads may share it.
#[derive(Drop)]
pub struct SharedSession<R: Wait, A: PrimaryHalf, B: SecondaryHalf> {
    pub(crate) alloc: Global,
    pub(crate) shared: Arc<Shared<R, A, B>, Global>,
}

impl<R: Wait + Clock, A: CalledHalf, B: SecondaryHalf> Device for SharedSession<R, A, B> {
    type Name = A::Name;

    ghost primary_shows = { A.shows };

    ghost secondary_shows = { B.shows };

    fn write(
        &self,
        me: &mut Caller<A::Name>,
        first: u64,
        bytes: &Bytes,
    ) -> Result<Receipt, Refusal> {
        let begun = self.begin(me, first, bytes.clone()?)?;
        self.complete(me, begun)
    }

    fn begin(&self, me: &mut Caller<A::Name>, first: u64, bytes: Bytes) -> Result<Begun, Refusal> {
        if bytes.len() % BLOCK_BYTES != 0 {
            return Err(Refusal::BadRange);
        }
        let number = self.submit(me, first, &bytes)?;
        self.shared.send_begun((bytes.len() / BLOCK_BYTES) as u64);
        Ok(Begun::new(number, first, bytes))
    }

    fn begin_within(
        &self,
        me: &mut Caller<A::Name>,
        block: u64,
        from: u32,
        bytes: &Bytes,
    ) -> Result<Begun, Refusal> {
        let (number, contents) = self.submit_within(me, block, from, bytes)?;
        self.shared.send_begun(1);
        Ok(Begun::new(number, block, contents))
    }

    fn complete(&self, me: &mut Caller<A::Name>, begun: Begun) -> Result<Receipt, Refusal> {
        let receipt = self.completed(me, begun.number())?;
        begun.end(receipt)
    }

    fn read(&self, me: &mut Caller<A::Name>, first: u64, count: u64) -> Result<Vec<u8>, Refusal> {
        self.shared.primary.read(me, first, count)
    }

    fn cut(&self) {
        self.shared.cut();
    }

    fn reconnect(&self, words: ConnectionWords) -> Result<u32, Refusal> {
        let shared = &self.shared;
        if shared.transport == Transport::Streams {
            return Err(Refusal::NotConnected);
        }
        self.reconnect_over_link(words)
    }

    fn progress(&self) -> Progress {
        self.shared.do_left();
        let primary = self.shared.primary.progress();
        let secondary = self.shared.secondary.progress();
        Progress { primary, secondary }
    }

    fn primary_progress(&self) -> PrimaryProgress {
        self.shared.do_left();
        self.shared.primary.progress()
    }

    fn prepare_leaving(&self, most: u64) -> u64 {
        self.shared.primary.prepare_leaving(most)
    }

    fn leave_prepared(&self) -> u64 {
        self.shared.primary.leave_prepared()
    }
}

impl<R: Wait, A: PrimaryHalf, B: SecondaryHalf> SharedSession<R, A, B> {
    /// Opens both ends again as `Device::reconnect` does, of a session that goes over one link: its rows take any number of
    /// connections. `NotConnected` (12) does not come.
    pub fn reconnect_over_link(&self, words: ConnectionWords) -> Result<u32, Refusal>
        ensures refused { IfErr result (λ e. reopen_refuses e ≡ true) }
    {
        let shared = &self.shared;
        let _connecting = shared.connecting.lock(&shared.rt);
        if !shared.secondary.progress().may_reopen() {
            return Err(Refusal::NotDrained);
        }
        let number = shared.primary.reopen(words)?;
        if let Err(refusal) = shared.secondary.reopen(number) {
            shared.primary.close();
            return Err(refusal);
        }
        shared.ring();
        Ok(number)
    }
}

impl<R: Wait + Clock, A: CalledHalf, B: SecondaryHalf> SharedSession<R, A, B> {
    // Submits a write. If it conflicts or a log is full, does a turn, or waits if the turn did nothing, and submits it
    // again.
    fn submit(&self, me: &mut Caller<A::Name>, first: u64, bytes: &Bytes) -> Result<u64, Refusal>
        ensures told { IfOk result (λ number. Extends me.old.log (Accepted number first bytes.now) me.new.log) }
        ensures mine { IfOk result (λ number. me.new.own ≡ me.old.own ++ number ∷ []) }
        ensures untold { OnErr result (me.new ≡ me.old) }
        ensures refused { IfErr result (λ e. (begin_refuses e ≡ true) ⊎ (e ≡ LocalFault)) }
    {
        let shared = &self.shared;
        let mut looks = 0u32;
        for _ in shared.rt.forever() {
            let rings = shared.primary.writers_bell().rings();
            match shared.primary.submit(me, first, bytes) {
                Err(Refusal::Conflict(_) | Refusal::LogFull | Refusal::ActivityFull) => {
                    looks = self.make_room(rings, looks);
                }
                done => return done,
            }
        }
        unreachable!()
    }

    // Submits a write within one block, as `submit` does. Each time it is submitted its block is read again, under the same lock: a write
    // that it conflicted with may have changed the block.
    fn submit_within(
        &self,
        me: &mut Caller<A::Name>,
        block: u64,
        from: u32,
        bytes: &Bytes,
    ) -> Result<(u64, Bytes), Refusal>
        requires some { 0 < length bytes.now }
        requires within { from + length bytes.now ≤ BLOCK_BYTES }
        ensures told { IfOk result (λ r. Extends me.old.log (Patched r.0 block from bytes.now) me.new.log) }
        ensures laid { IfOk result (λ r. (old : List ℕ) × (r.1 ≡ laid_over from bytes.now old)) }
        ensures length { IfOk result (λ r. length r.1 ≡ BLOCK_BYTES) }
        ensures mine { IfOk result (λ r. me.new.own ≡ me.old.own ++ r.0 ∷ []) }
        ensures untold { OnErr result (me.new ≡ me.old) }
        ensures refused { IfErr result (λ e. (begin_refuses e ≡ true) ⊎ ((e ≡ LocalFault) ⊎ (e ≡ ReadFault))) }
    {
        let shared = &self.shared;
        let mut looks = 0u32;
        for _ in shared.rt.forever() {
            let rings = shared.primary.writers_bell().rings();
            match shared.primary.submit_within(me, block, from, bytes) {
                Err(Refusal::LogFull | Refusal::ActivityFull | Refusal::Conflict(_)) => {
                    looks = self.make_room(rings, looks);
                }
                done => return done,
            }
        }
        unreachable!()
    }

    // Does a turn, so that a write which conflicted, or for which a log was full, may be accepted. Waits if the turn did nothing. `rings`
    // are the bell's before that write was submitted, and `looks` tells how often this has waited since a turn did something. Returns
    // the next one of these.
    fn make_room(&self, rings: u64, looks: u32) -> u32 {
        let shared = &self.shared;
        shared.do_left();
        if shared.turn_primary(PrimaryRole::Receiver).worked {
            0
        } else {
            shared.primary.writers_bell().wait(&shared.rt, rings, looks);
            looks.saturating_add(1)
        }
    }

    // Waits until a write is completed or failed. It does what there is to do for it at both nodes, so that a single write is handed to no
    // other thread.
    fn completed(&self, me: &mut Caller<A::Name>, number: u64) -> Result<Receipt, Refusal>
        ensures number { IfOk result (λ receipt. receipt.number ≡ number) }
        ensures told { IfOk result (λ receipt. Extends me.old.log (Given receipt) me.new.log) }
        ensures mine { me.new.own ≡ me.old.own }
        ensures untold { OnErr result (me.new ≡ me.old) }
        ensures refused { IfErr result (λ e. complete_refuses e ≡ true) }
    {
        let shared = &self.shared;
        shared.note_waited_for();
        let taken = shared.primary.take_completed(me, number);
        if !matches!(taken, Err(Refusal::NotCompleted)) {
            shared.ring_if_unrung();
            return taken;
        }
        let mut looks = 0u32;
        for _ in shared.rt.forever() {
            let rings = shared.primary.writers_bell().rings();
            let worked = shared.help_primary(PrimaryRole::Disk);
            match shared.primary.take_completed(me, number) {
                Err(Refusal::NotCompleted) => {
                    if shared.help_secondary() || worked {
                        looks = 0;
                    } else {
                        shared.primary.writers_bell().wait(&shared.rt, rings, looks);
                        looks = looks.saturating_add(1);
                    }
                }
                done => {
                    shared.ring_if_unrung();
                    return done;
                }
            }
        }
        unreachable!()
    }
}
