//! The primary's half, as those who write and read see it.
ghost use Rattle.std.specs.Prelude.{◌≡◌, ◌⊎◌, ◌+◌, ◌*◌, ◌<◌, ◌≤◌, ◌∷◌, ◌++◌, [], true, List, ℕ, length, vec_len, IfErr, IfOk, OnErr};
ghost use Rattle.blocks.specs.declared.block.TheConstants.{BLOCK_BYTES};
ghost use Rattle.blocks.specs.declared.refusal.Refusal.TheVariants.{BadRange, LocalFault, NoMemory, ReadFault};
ghost use Rattle.model.specs.CallRefusals.{submit_refuses, take_completed_refuses};
ghost use Rattle.device_parts.specs.Places.{laid_over};
ghost use Rattle.told.specs.Log.{Extends};
ghost use Rattle.told.specs.declared.entry.Told.TheVariants.{Accepted, Given, Held, Patched};

use crate::primary_half::PrimaryHalf;
use blocks::Refusal;
use bytes::Bytes;
use ghost_log::LogName;
use primary::Receipt;
use told::Caller;

/// The calls of the primary's half that tell their caller something. The threads of a session make none of them, so that they name no log.
///
/// Each caller has a value of its own, of no bytes, that says what it was told so far and which writes are its own (`Caller`). A call
/// that tells it something more adds that to the log of the session, behind all that the caller has seen of it.
pub trait CalledHalf: PrimaryHalf {
    /// The name of the log of what callers are told.
    type Name: LogName;

    /// Accepts a write and returns its number. Refuses with 1 to 7 and 12, and with 8 if the metadata's file failed, and does not
    /// have the write's extent.
    fn submit(&self, me: &mut Caller<Self::Name>, first: u64, bytes: &Bytes) -> Result<u64, Refusal>
        ensures told { IfOk result (λ number. Extends me.old.log (Accepted number first bytes.now) me.new.log) }
        ensures mine { IfOk result (λ number. me.new.own ≡ me.old.own ++ number ∷ []) }
        ensures untold { OnErr result (me.new ≡ me.old) }
        ensures refused { IfErr result (λ e. (submit_refuses e ≡ true) ⊎ (e ≡ LocalFault)) };

    /// Reads a block, lays these bytes over it from its byte `from` on, and accepts a write of what that gives, under one lock. Returns the
    /// write's number, and what it writes. Refuses as `submit` does, and with 14 if the disk fails.
    fn submit_within(
        &self,
        me: &mut Caller<Self::Name>,
        block: u64,
        from: u32,
        bytes: &Bytes,
    ) -> Result<(u64, Bytes), Refusal>
        requires some { 0 < length bytes.now }
        requires within { from + length bytes.now ≤ BLOCK_BYTES }
        ensures told { IfOk result (λ r. Extends me.old.log (Patched r.0 block from bytes.now) me.new.log) }
        ensures laid { IfOk result (λ r. (old : List ℕ) × (r.1 ≡ laid_over from bytes.now old)) }
        ensures length { IfOk result (λ r. length r.1 ≡ BLOCK_BYTES) }
        ensures mine { IfOk result (λ r. me.new.own ≡ me.old.own ++ r.0 ∷ []) }
        ensures untold { OnErr result (me.new ≡ me.old) }
        ensures refused { IfErr result (λ e. (submit_refuses e ≡ true) ⊎ ((e ≡ LocalFault) ⊎ (e ≡ ReadFault))) };

    /// Returns the receipt of a write, once. Refuses with 8, 9 and 16.
    fn take_completed(&self, me: &mut Caller<Self::Name>, number: u64) -> Result<Receipt, Refusal>
        ensures number { IfOk result (λ receipt. receipt.number ≡ number) }
        ensures told { IfOk result (λ receipt. Extends me.old.log (Given receipt) me.new.log) }
        ensures mine { me.new.own ≡ me.old.own }
        ensures untold { OnErr result (me.new ≡ me.old) }
        ensures refused { IfErr result (λ e. take_completed_refuses e ≡ true) };

    /// Reads blocks of the local disk.
    fn read(&self, me: &mut Caller<Self::Name>, first: u64, count: u64) -> Result<Vec<u8>, Refusal>
        ensures told { IfOk result (λ bytes. Extends me.old.log (Held first count bytes.items) me.new.log) }
        ensures mine { me.new.own ≡ me.old.own }
        ensures untold { OnErr result (me.new ≡ me.old) }
        ensures length { IfOk result (λ bytes. vec_len bytes ≡ count * BLOCK_BYTES) }
        ensures refused { IfErr result (λ e. (e ≡ BadRange) ⊎ ((e ≡ NoMemory) ⊎ (e ≡ ReadFault))) };
}
