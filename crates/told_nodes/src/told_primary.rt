//! The primary with what its callers were told.
ghost use Rattle.std.specs.Prelude.{◌≡◌, ◌⊎◌, ◌+◌, ◌*◌, ◌<◌, ◌≤◌, ◌∷◌, ◌++◌, [], true, false, Bool, List, ℕ, length, slice_get, unwrap_or, vec_len, is_some, IfOk, IfErr, IfSome, OnErr};
ghost use Rattle.blocks.specs.declared.block.TheConstants.{BLOCK_BYTES};
ghost use Rattle.blocks.specs.declared.refusal.Refusal.TheVariants.{BadRange, LocalFault, NoMemory, ReadFault};
ghost use Rattle.endpoint.specs.Calls.{IsNewIn, IsNewOut};
ghost use Rattle.kept_nodes.specs.Kept.{PrimaryIsKept, is_broken};
ghost use Rattle.model.specs.CallRefusals.{ack_in_refuses, local_open_refuses, reopen_refuses, send_refuses, submit_refuses, take_completed_refuses};
ghost use Rattle.model.specs.LocalRuns.{Opens, primary_after};
ghost use Rattle.model.specs.Primary.{primary_opening};
ghost use Rattle.model.specs.Theorems.{primary_at};
ghost use Rattle.kept_nodes.specs.Shown.{PrimaryHasShown};
ghost use Rattle.session_nodes.specs.Primaries.{PrimaryHas, PrimaryIsHad};
ghost use Rattle.device_parts.specs.Places.{laid_over};
ghost use Rattle.told.specs.Log.{Extends};
ghost use Rattle.told.specs.declared.entry.Told.TheVariants.{Accepted, Given, Held, Patched};
ghost use Rattle.told_nodes.specs.Told.{IsTold};

use crate::patch::lay_over;
use bitmap::Bitmap;
use blocks::{ConnectionWords, Done, Refusal, Settings, Store, Tuple};
use bytes::Bytes;
use kept_nodes::KeptPrimary;
use link::{FrameIn, FrameOut};
use metadata::{Metadata, StableFile};
use node_lines::PrimaryProgress;
use primary::{Primary, Receipt};
use session_api::{PrimaryRole, Turn};
use session_nodes::Beginning;
use std::alloc::Global;
use std::marker::Model;
use told::{Caller, ToldLog};

/// The primary of a session, kept under a lock, with the log of what its callers were told. Invariant: all of it was told on the way
/// of one history, which the node has (`IsTold`). The log takes no byte, and its calls do nothing when the program runs.
#[derive(Drop)]
pub struct ToldPrimary<
    B: Beginning,
    O: FrameOut + Drop,
    I: FrameIn + Drop,
    S: Store + Drop,
    F: StableFile,
> {
    kept: KeptPrimary<B, O, I, S, F>,
    log: ToldLog<B>,
}

impl<B: Beginning, O: FrameOut + Drop, I: FrameIn + Drop, S: Store + Drop, F: StableFile> Model
    for ToldPrimary<B, O, I, S, F> {
    ghost use Rattle.told_nodes.specs.Told.{IsTold, ToldState};

    ghost Value = { ToldState F };

    ghost view = { λ n. record { kept = n.kept; log = n.log.log } };

    ghost invariant = { λ n. IsTold B.opening n.log.log n.kept.node };
}

impl<
    B: Beginning,
    O: FrameOut + Drop,
    I: FrameIn + Drop,
    S: Store + Drop,
    F: StableFile,
> ToldPrimary<B, O, I, S, F> {
    /// Creates a primary over its disk, as `KeptPrimary::open` does and with its refusals, of whose callers none was told anything.
    pub fn open(
        alloc: Global,
        settings: Settings,
        store: S,
        tuple: Tuple,
        marks: Bitmap,
        link: (O, I),
        words: ConnectionWords,
        metadata: Option<Metadata<F>>,
        log: ToldLog<B>,
    ) -> Result<ToldPrimary<B, O, I, S, F>, Refusal>
        requires outward { IsNewOut (O.state link.0) }
        requires inward { IsNewIn (I.state link.1) }
        requires began { IfSome B.opening (λ opening. primary_opening settings (slice_get (S.contents store)) tuple (λ block. unwrap_or (slice_get marks block) false)
            ≡ primary_at opening) }
        requires log { log.log ≡ [] }
        ensures opened { IfOk result (λ n. PrimaryHas n.kept.node (primary_after (Opens words.sync words.loss false)
            (primary_opening settings (slice_get (S.contents store)) tuple (λ block. unwrap_or (slice_get marks block) false)))) }
        ensures metadata { IfOk result (λ n. is_some n.kept.metadata ≡ is_some metadata) }
        ensures whole { IfOk result (λ n. is_broken n.kept.metadata ≡ false) }
        ensures untold { IfOk result (λ n. n.log ≡ []) }
        ensures refused { IfErr result (λ e. (local_open_refuses e ≡ true) ⊎ ((e ≡ LocalFault) × (is_some metadata ≡ true))) }
    {
        match KeptPrimary::open(alloc, settings, store, tuple, marks, link, words, metadata) {
            Ok(kept) => Ok(ToldPrimary { kept, log }),
            Err(refusal) => Err(refusal),
        }
    }

    /// Accepts a write and returns its number. The caller is told so after all that it has seen. The refusals are those of
    /// `KeptPrimary::submit`; then it is told nothing.
    pub fn submit(&mut self, me: &mut Caller<B>, first: u64, bytes: &Bytes) -> Result<u64, Refusal>
        ensures told { IfOk result (λ number. Extends me.old.log (Accepted number first bytes.now) me.new.log) }
        ensures mine { IfOk result (λ number. me.new.own ≡ me.old.own ++ number ∷ []) }
        ensures untold { OnErr result (me.new ≡ me.old) }
        ensures refused { IfErr result (λ e. (submit_refuses e ≡ true) ⊎ (e ≡ LocalFault)) }
    {
        let (number, _) = self.kept.submit(first, bytes)?;
        me.accepted(&mut self.log, &(number, first), bytes);
        Ok(number)
    }

    /// Reads a block, lays these bytes over it from its byte `from` on, and accepts a write of what that gives. Returns the write's number,
    /// and what it writes. The caller is told so after all that it has seen. The refusals are those of `KeptPrimary::read` and
    /// `KeptPrimary::submit`; then it is told nothing.
    pub fn submit_within(
        &mut self,
        me: &mut Caller<B>,
        block: u64,
        from: u32,
        bytes: &Bytes,
    ) -> Result<(u64, Bytes), Refusal>
        requires some { 0 < length bytes.now }
        requires within { from + length bytes.now ≤ BLOCK_BYTES }
        ensures told { IfOk result (λ r. Extends me.old.log (Patched r.0 block from bytes.now) me.new.log) }
        ensures laid { IfOk result (λ r. (old : List ℕ) × (r.1 ≡ laid_over from bytes.now old)) }
        ensures length { IfOk result (λ r. length r.1 ≡ BLOCK_BYTES) }
        ensures mine { IfOk result (λ r. me.new.own ≡ me.old.own ++ r.0 ∷ []) }
        ensures untold { OnErr result (me.new ≡ me.old) }
        ensures refused { IfErr result (λ e. (submit_refuses e ≡ true) ⊎ ((e ≡ LocalFault) ⊎ (e ≡ ReadFault))) }
    {
        let found = self.kept.read(block, 1)?;
        let contents = lay_over(found, from as usize, bytes)?;
        let (number, _) = self.kept.submit(block, &contents)?;
        me.patched(&mut self.log, &(number, block, from), bytes);
        Ok((number, contents))
    }

    /// Returns the receipt of a write, once. The caller is told so after all that it has seen. The refusals are those of
    /// `KeptPrimary::take_completed`; then it is told nothing.
    pub fn take_completed(&mut self, me: &mut Caller<B>, number: u64) -> Result<Receipt, Refusal>
        ensures number { IfOk result (λ receipt. receipt.number ≡ number) }
        ensures told { IfOk result (λ receipt. Extends me.old.log (Given receipt) me.new.log) }
        ensures mine { me.new.own ≡ me.old.own }
        ensures untold { OnErr result (me.new ≡ me.old) }
        ensures refused { IfErr result (λ e. take_completed_refuses e ≡ true) }
    {
        let receipt = self.kept.take_completed(number)?;
        me.given(&mut self.log, &receipt);
        Ok(receipt)
    }

    /// Reads blocks of the local disk. The caller is told so after all that it has seen. The refusals are those of `KeptPrimary::read`;
    /// then it is told nothing.
    pub fn read(&mut self, me: &mut Caller<B>, first: u64, count: u64) -> Result<Vec<u8>, Refusal>
        ensures told { IfOk result (λ bytes. Extends me.old.log (Held first count bytes.items) me.new.log) }
        ensures mine { me.new.own ≡ me.old.own }
        ensures length { IfOk result (λ bytes. vec_len bytes ≡ count * BLOCK_BYTES) }
        ensures untold { OnErr result (me.new ≡ me.old) }
        ensures refused { IfErr result (λ e. (e ≡ BadRange) ⊎ ((e ≡ NoMemory) ⊎ (e ≡ ReadFault))) }
    {
        let bytes = self.kept.read(first, count)?;
        me.held(&mut self.log, &(first, count), &bytes);
        Ok(bytes)
    }

    /// Sends the next frame, as `KeptPrimary::send` does.
    pub fn send(&mut self) -> Result<Done, Refusal>
        ensures refused { IfErr result (λ e. send_refuses e ≡ true) }
    {
        self.kept.send()
    }

    /// Takes the next frame, as `KeptPrimary::ack_in` does.
    pub fn ack_in(&mut self) -> Result<Done, Refusal>
        ensures refused { IfErr result (λ e. ack_in_refuses e ≡ true) }
    {
        self.kept.ack_in()
    }

    /// Does a turn of a thread, as `KeptPrimary::turn` does.
    pub fn turn(&mut self, role: PrimaryRole) -> Turn {
        self.kept.turn(role)
    }

    /// Closes the end, if it is open.
    pub fn close(&mut self) {
        let _ = self.kept.close();
    }

    /// Closes the end, if it is open and its connection is `connection` or an earlier one.
    pub fn close_lost(&mut self, connection: u32) {
        self.kept.close_lost(connection);
    }

    /// Opens the end again, as `KeptPrimary::reopen` does, and returns the connection's number.
    pub fn reopen(&mut self, words: ConnectionWords) -> Result<u32, Refusal>
        ensures refused { IfErr result (λ e. reopen_refuses e ≡ true) }
    {
        self.kept.reopen(words)
    }

    /// Prepares extents to leave the metadata, as `KeptPrimary::prepare_leaving` does.
    pub fn prepare_leaving(&mut self, most: u64) -> u64 {
        self.kept.prepare_leaving(most)
    }

    /// Takes out the extents that are prepared, as `KeptPrimary::leave_prepared` does.
    pub fn leave_prepared(&mut self) -> u64 {
        self.kept.leave_prepared()
    }

    /// Returns the node with its metadata for reading.
    pub fn kept(&self) -> &KeptPrimary<B, O, I, S, F>
        ensures { result.now ≡ self.now.kept }
    {
        &self.kept
    }

    /// Returns how far the primary has come.
    pub fn progress(&self) -> PrimaryProgress
        ensures told { PrimaryHasShown B.opening result }
    {
        self.kept.progress()
    }

    /// Returns the node alone, its metadata, and the log.
    pub fn into_parts(self) -> (Primary<O, I, S>, Option<Metadata<F>>, ToldLog<B>)
        ensures told { IsTold B.opening result.2.log result.0 }
        ensures had { PrimaryIsHad B.opening result.0 }
        ensures kept { (owes_all : Bool) × PrimaryIsKept F.seen F.may_leave F.faithful B.opening result.0 result.1 owes_all }
    {
        let ToldPrimary { kept, log } = self;
        let (node, metadata) = kept.into_parts();
        (node, metadata, log)
    }
}
