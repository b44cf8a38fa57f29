//! Accepting a write.
ghost use Rattle.std.specs.Prelude.{◌≡◌, ◌+◌, ◌*◌, ◌^◌, ◌<◌, ◌≤◌, Some, None, true, false, length, IfOk, IfErr, OnOk, OnErr};
ghost use Rattle.activitylog.specs.Activity.{begun, can_begin, writes_of};
ghost use Rattle.blocks.specs.declared.refusal.Refusal.TheVariants.{BadRange, NoMemory};
ghost use Rattle.model.specs.Contents.{extent_of, is_range};
ghost use Rattle.model.specs.Refusals.{first_refusal};
ghost use Rattle.overlap.specs.Holdings.{conflict, holding, holding_too, is_held};
ghost use Rattle.primary_core.specs.Kept.{owing};
ghost use Rattle.primary_core.specs.OutOfMemory.{is_out_of_memory};
ghost use Rattle.primary_core.specs.Submit.{IsWhole, gone_out, range_tests, taken_in, result_of_tests};
ghost use Rattle.primary_protocol.specs.Core.{EndState, is_established};
ghost use Rattle.primary_protocol.specs.Transitions.{submit, whole_blocks};

use crate::entry::{Fate, JournalEntry};
use crate::item::ItemKind;
use crate::state::PrimaryCore;
use activitylog::ActivityLog;
use blocks::{BLOCK_BYTES, Done, Range, Refusal, What};
use bytes::Bytes;
use overlap::Held;
use transferlog::Accepted;

/// The most writes that are accepted (this project's limit).
const MOST_WRITES: u64 = 1_048_576;

/// A stream with this many items takes no further write or resync block, only the items that come unasked (this
/// project's limit).
pub(crate) const MOST_ITEMS: u32 = 4_294_967_288;

impl PrimaryCore {
    /// Accepts a write of whole blocks, from block `first` on; the bytes are shared. If a connection is
    /// established, the write goes to its stream, otherwise its blocks are marked.
    ///
    /// `BadRange` (1) if it is not 1 to 32 whole blocks inside the device and inside one extent; `NotConnected` (12)
    /// if no connection is established and the bitmap records no generation; `JournalFull` (5) if 1,048,576 writes
    /// were accepted; `LogFull` (3) if `backlog` writes are unreleased; `Conflict` (2) if an open write overlaps it,
    /// or the block under way does, whose number here is 0; `ActivityFull` (4) if its extent is not active and cannot
    /// become so; `StreamFull` (6) if the stream has 4,294,967,288 items or more; else `NoMemory` (7) if there is no
    /// room for it, its barrier, its entry and its item.
    pub fn submit(&mut self, first: u64, bytes: &Bytes) -> Result<Done, Refusal>
        ensures { (result, self.new.state) ≡ submit first bytes.now (is_out_of_memory result) self.old.state }
    {
        let range = self.whole_range(first, bytes)?;
        self.may_submit(range)?;
        let shared = bytes.clone()?;
        let accepted = self.accept(range, bytes.clone()?)?;
        Ok(self.send_or_mark(accepted, range, shared))
    }

    // Returns the range that these bytes fill from block `first` on.
    fn whole_range(&self, first: u64, bytes: &Bytes) -> Result<Range, Refusal>
        ensures whole { IfOk result (λ r. IsWhole self.now.state.settings r.first.0 r.count bytes.now × (r.first.0 ≡ first)) }
        ensures refused { IfErr result (λ e. (e ≡ BadRange) × (is_range self.now.state.settings first (length (whole_blocks bytes.now)) ≡ false)) }
    {
        if bytes.len() % BLOCK_BYTES != 0 {
            return Err(Refusal::BadRange);
        }
        Range::new(
            first,
            (bytes.len() / BLOCK_BYTES) as u64,
            self.settings.blocks,
        )
    }

    // Checks whether `submit` would accept a write of this range, except for memory.
    fn may_submit(&self, range: Range) -> Result<(), Refusal>
        ensures { result ≡ result_of_tests (range_tests range.first.0 range.count self.now.state) }
    {
        let is_established = self.log.connection().is_some();
        if !is_established && self.generations.tuple.bitmap == 0 {
            return Err(Refusal::NotConnected);
        }
        if self.log.accepted() >= MOST_WRITES {
            return Err(Refusal::JournalFull);
        }
        self.log.may_accept()?;
        if let Some(number) = self.conflict(range) {
            return Err(Refusal::Conflict(number));
        }
        if !self.activity.can_begin(range.first.extent()) {
            return Err(Refusal::ActivityFull);
        }
        if is_established && self.log.places() >= MOST_ITEMS {
            return Err(Refusal::StreamFull);
        }
        Ok(())
    }

    // Returns the lowest number whose blocks overlap the range; 0 is the block under way.
    fn conflict(&self, range: Range) -> Option<u64>
        ensures { result ≡ conflict range.first.0 range.count self.now.state.held }
    {
        let writes = &self.held;
        if let Some(way) = self.under_way() {
            let copied = Range {
                first: way.block,
                count: 1,
            };
            if copied.meets(&range) {
                return Some(0);
            }
        }
        writes.conflict(range)
    }

    // Appends the write to the log and the journal, inserts its interval, and activates its extent.
    fn accept(&mut self, range: Range, contents: Bytes) -> Result<Accepted, Refusal>
        requires inside { range.first.0 + range.count ≤ self.old.state.settings.blocks }
        requires whole { length contents ≡ 4096 * range.count }
        requires tests { first_refusal (range_tests range.first.0 range.count self.old.state) ≡ None }
        ensures accepted { IfOk result (λ a. (a, self.new.state) ≡ taken_in range.first.0 range.count contents self.old.state) }
        ensures room { IfOk result (λ a. is_established self.new.state ≡ true → (e : EndState) → self.new.state.end ≡ Some e → 1 + owing a.barrier (Some e) self.new.state.log ≤ self.new.stream_room) }
        ensures refused { IfErr result (λ e. e ≡ NoMemory) }
        ensures unchanged { OnErr result (self.new.state ≡ self.old.state) }
    {
        self.make_room()?;
        self.entries.reserve(1)?;
        self.confirmed.reserve(1)?;
        let number = self.log.accepted() + 1;
        begin(&mut self.held, &mut self.activity, number, range)?;
        let accepted = self.log.accept(range, contents)?;
        self.entries.push_reserved(JournalEntry {
            first: range.first.0,
            count: range.count,
            fate: Fate::Open,
            is_taken: false,
        });
        self.confirmed.push_reserved(false);
        Ok(accepted)
    }

    // Appends the write's item to the stream, or marks its blocks if no connection is established.
    fn send_or_mark(&mut self, accepted: Accepted, range: Range, contents: Bytes) -> Done
        requires inside { range.first.0 + range.count ≤ self.old.state.settings.blocks }
        requires whole { length contents ≡ 4096 * range.count }
        requires numbered { 0 < accepted.number }
        requires room { is_established self.old.state ≡ true → (e : EndState) → self.old.state.end ≡ Some e → 1 + owing accepted.barrier (Some e) self.old.state.log ≤ self.old.stream_room }
        ensures { (result, self.new.state) ≡ gone_out accepted range.first.0 range.count contents self.old.state }
    {
        let what = What::Write(accepted.number);
        if self.log.connection().is_none() {
            self.marks.mark(range);
            return self.finish_step(what, None);
        }
        self.append(ItemKind::Write(accepted.number, range.first, contents));
        self.finish_step(what, accepted.barrier)
    }
}

// Inserts the interval of write `number`, and activates its extent.
fn begin(
    held: &mut Held,
    activity: &mut ActivityLog,
    number: u64,
    range: Range,
) -> Result<(), Refusal>
    requires new { is_held number held.old ≡ false }
    requires apart { conflict range.first.0 range.count held.old ≡ None }
    requires active { can_begin (extent_of range.first.0) activity.old ≡ true }
    requires few { writes_of (extent_of range.first.0) activity.old.active + 1 < 2 ^ 32 }
    ensures held { OnOk result (held.new ≡ holding_too (holding number range.first.0 range.count) held.old) }
    ensures begun { OnOk result (activity.new ≡ begun (extent_of range.first.0) activity.old) }
    ensures refused { IfErr result (λ e. e ≡ NoMemory) }
    ensures unheld { OnErr result (held.new ≡ held.old) }
    ensures unbegun { OnErr result (activity.new ≡ activity.old) }
{
    held.hold(number, range)?;
    if let Err(refusal) = activity.begin(range.first.extent()) {
        held.release(number);
        return Err(refusal);
    }
    Ok(())
}
