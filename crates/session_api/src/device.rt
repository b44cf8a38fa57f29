//! A mirrored device, as its callers see it.
ghost use Rattle.std.specs.Prelude.{◌≡◌, ◌⊎◌, ◌+◌, ◌*◌, ◌<◌, ◌≤◌, ◌∷◌, ◌++◌, [], List, ℕ, true, length, vec_len, IfErr, IfOk, OnErr};
ghost use mathlib.Core.List.{IsPrefix};
ghost use Rattle.blocks.specs.declared.block.TheConstants.{BLOCK_BYTES};
ghost use Rattle.blocks.specs.declared.refusal.Refusal.TheVariants.{BadRange, LocalFault, NoMemory, ReadFault};
ghost use Rattle.model.specs.CallRefusals.{begin_refuses, complete_refuses, reconnect_refuses, write_refuses};
ghost use Rattle.device_parts.specs.Places.{laid_over};
ghost use Rattle.told.specs.Log.{Extends};
ghost use Rattle.told.specs.declared.entry.Told.{Told};
ghost use Rattle.told.specs.declared.entry.Told.TheVariants.{Accepted, Given, Held, Patched};

use crate::{Begun, Progress};
use blocks::{ConnectionWords, Refusal};
use bytes::Bytes;
use ghost_log::LogName;
use node_lines::PrimaryProgress;
use primary::Receipt;
use told::Caller;

/// A mirrored device, over any session. Any number of threads may call it at a time, each as a caller of its own (`Caller`).
pub trait Device {
    ghost use Rattle.node_lines.specs.declared.primary_progress.PrimaryProgress.{PrimaryProgress};
    ghost use Rattle.node_lines.specs.declared.secondary_progress.SecondaryProgress.{SecondaryProgress};

    /// The name of the log of what its callers are told.
    type Name: LogName;

    /// `primary_shows progress`: the primary had come as far.
    ghost primary_shows: { PrimaryProgress → Type 0 };

    /// `secondary_shows progress`: the secondary had come as far.
    ghost secondary_shows: { SecondaryProgress → Type 0 };

    /// Writes whole blocks from `first` on, and returns the receipt once the write is completed as the protocol says.
    /// Any number of writers may call it at a time.
    ///
    /// It tries again on `Conflict` (2), `LogFull` (3) and `ActivityFull` (4), waits while the write is open, and
    /// returns every other refusal of `Primary::submit` and `Primary::take_completed`: `BadRange` (1), `JournalFull`
    /// (5), `StreamFull` (6), `NoMemory` (7), `LocalFault` (8), `NotConnected` (12), and `UnknownJob` (16), which a receipt
    /// of another range would be, too. It returns no other.
    fn write(
        &self,
        me: &mut Caller<Self::Name>,
        first: u64,
        bytes: &Bytes,
    ) -> Result<Receipt, Refusal>
        ensures own { IfOk result (λ receipt. (receipt.first ≡ first) × (receipt.count * BLOCK_BYTES ≡ length bytes.now)) }
        ensures told { IfOk result (λ receipt. (between : List Told) × Extends me.old.log (Accepted receipt.number first bytes.now) between
            × Extends between (Given receipt) me.new.log) }
        ensures mine { IfOk result (λ receipt. me.new.own ≡ me.old.own ++ receipt.number ∷ []) }
        ensures refused { IfErr result (λ e. write_refuses e ≡ true) };

    /// Begins a write of whole blocks from `first` on: it is accepted, and sent if there is room for it. A caller with
    /// many writes begins them all, and then waits for one after another.
    ///
    /// It tries again on `Conflict` (2), `LogFull` (3) and `ActivityFull` (4), and returns every other refusal of
    /// `Primary::submit`: `BadRange` (1), `JournalFull` (5), `StreamFull` (6), `NoMemory` (7), `NotConnected` (12); and
    /// `LocalFault` (8) if the metadata's file failed, and does not have the write's extent. It returns no other.
    fn begin(&self, me: &mut Caller<Self::Name>, first: u64, bytes: Bytes) -> Result<Begun, Refusal>
        ensures range { IfOk result (λ begun. (begun.first ≡ first) × (begun.count * BLOCK_BYTES ≡ length bytes)) }
        ensures contents { IfOk result (λ begun. begun.contents ≡ bytes) }
        ensures told { IfOk result (λ begun. Extends me.old.log (Accepted begun.number first bytes) me.new.log) }
        ensures mine { IfOk result (λ begun. me.new.own ≡ me.old.own ++ begun.number ∷ []) }
        ensures untold { OnErr result (me.new ≡ me.old) }
        ensures refused { IfErr result (λ e. (begin_refuses e ≡ true) ⊎ (e ≡ LocalFault)) };

    /// Begins a write of bytes within one block, from its byte `from` on: the block is read, the bytes are laid over it, and the whole
    /// block is written, and nothing comes between. So no overlapping write is lost, and the other bytes of the block are what it had.
    ///
    /// It tries again and refuses as `begin` does, and refuses with `ReadFault` (14) if the disk does not give the block; then
    /// nothing is accepted.
    fn begin_within(
        &self,
        me: &mut Caller<Self::Name>,
        block: u64,
        from: u32,
        bytes: &Bytes,
    ) -> Result<Begun, Refusal>
        requires some { 0 < length bytes.now }
        requires within { from + length bytes.now ≤ BLOCK_BYTES }
        ensures block { IfOk result (λ begun. (begun.first ≡ block) × (begun.count ≡ 1)) }
        ensures laid { IfOk result (λ begun. (old : List ℕ) × (begun.contents ≡ laid_over from bytes.now old)) }
        ensures told { IfOk result (λ begun. Extends me.old.log (Patched begun.number block from bytes.now) me.new.log) }
        ensures mine { IfOk result (λ begun. me.new.own ≡ me.old.own ++ begun.number ∷ []) }
        ensures untold { OnErr result (me.new ≡ me.old) }
        ensures refused { IfErr result (λ e. (begin_refuses e ≡ true) ⊎ ((e ≡ LocalFault) ⊎ (e ≡ ReadFault))) };

    /// Waits until a write that was begun is completed as the protocol says, and returns its receipt.
    ///
    /// It returns the refusals of `Primary::take_completed` except `NotCompleted` (9): `LocalFault` (8), and
    /// `UnknownJob` (16) for a write of another session. A receipt of another range would be `UnknownJob` (16), too. It
    /// returns no other.
    fn complete(&self, me: &mut Caller<Self::Name>, begun: Begun) -> Result<Receipt, Refusal>
        ensures number { IfOk result (λ receipt. receipt.number ≡ begun.number) }
        ensures own { IfOk result (λ receipt. (receipt.first ≡ begun.first) × (receipt.count ≡ begun.count)) }
        ensures told { IfOk result (λ receipt. Extends me.old.log (Given receipt) me.new.log) }
        ensures goes_on { IsPrefix me.old.log me.new.log }
        ensures mine { me.new.own ≡ me.old.own }
        ensures refused { IfErr result (λ e. complete_refuses e ≡ true) };

    /// Reads blocks of the local disk, 1 to 32 inside the device and inside one extent.
    ///
    /// `BadRange` (1) if they are not, else `NoMemory` (7) if there is no memory for their bytes, else `ReadFault` (14)
    /// if the disk fails.
    fn read(&self, me: &mut Caller<Self::Name>, first: u64, count: u64) -> Result<Vec<u8>, Refusal>
        ensures told { IfOk result (λ bytes. Extends me.old.log (Held first count bytes.items) me.new.log) }
        ensures mine { me.new.own ≡ me.old.own }
        ensures untold { OnErr result (me.new ≡ me.old) }
        ensures length { IfOk result (λ bytes. vec_len bytes ≡ count * BLOCK_BYTES) }
        ensures refused { IfErr result (λ e. (e ≡ BadRange) ⊎ ((e ≡ NoMemory) ⊎ (e ≡ ReadFault))) };

    /// Closes both ends of the link. Writers go on without it; writes under way are completed by the close.
    fn cut(&self);

    /// Opens both ends again under fresh words, and returns the connection's number, the first being 1. The threads
    /// exchange the hellos; if one is refused, both ends close.
    ///
    /// `NotConnected` (12) if the session goes over streams: it has one connection, and this is checked first. Else `NotDrained`
    /// (36) if an end is not closed, or if the secondary has items to do; the caller tries again. Else `UsedIdentifier` (33) if
    /// a word is zero or occurs in a known tuple, or if both words are equal; `StreamFull` (6) after 4,294,967,295 connections;
    /// `NoMemory` (7). No other refusal comes. Then nothing has changed. If the secondary refuses at last, the primary closes
    /// again before its stream began, and the number is used up.
    fn reconnect(&self, words: ConnectionWords) -> Result<u32, Refusal>
        ensures refused { IfErr result (λ e. reconnect_refuses e ≡ true) };

    /// Returns how far both nodes have come, each at a moment of the call, the primary first. It waits for a disk that writes under its
    /// node's lock.
    fn progress(&self) -> Progress
        ensures primary { primary_shows result.primary }
        ensures secondary { secondary_shows result.secondary };

    /// Returns how far the primary has come. It asks the primary alone, so it does not wait for the peer's disk.
    fn primary_progress(&self) -> PrimaryProgress
        ensures shown { primary_shows result };

    /// Prepares extents of the metadata to leave, `most` at the most: their marks are written, and the file is synced. Returns how many
    /// are prepared now.
    fn prepare_leaving(&self, most: u64) -> u64;

    /// Takes out of the metadata each prepared extent to which no write was accepted since, and that has no unreleased write. The caller has
    /// synced both disks since they were prepared. Returns how many left.
    fn leave_prepared(&self) -> u64;
}
