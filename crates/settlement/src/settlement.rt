//! The settlement of two nodes.
ghost use Rattle.std.specs.Prelude.{◌≡◌, ◌⊎◌, ◌<◌, ◌≤◌, count_by, false, length, true, IsTrue, Err, IfOk, OnOk};
ghost use Rattle.blocks.specs.declared.refusal.Refusal.TheVariants.{ReadFault};
ghost use Rattle.model.specs.Headline.{IsJoined};
ghost use Rattle.model.specs.Primary.{PrimaryHistory};
ghost use Rattle.model.specs.Secondary.{SecondaryHistory, secondary_connection_at, items_taken};
ghost use Rattle.model.specs.Settlement.{applied_items, is_at_rest, settle, unmarked_differences};
ghost use Rattle.model.specs.Theorems.{Settles, SettlesAnyhow};
ghost use Rattle.model.specs.WriteOrder.{IsUnharmed, KeepsWriteOrder};
ghost use Rattle.primary.specs.State.{node as primary_node};
ghost use Rattle.primary_protocol.specs.Node.{NodeHas as PrimaryHas};
ghost use Rattle.secondary.specs.State.{node as secondary_node};
ghost use Rattle.secondary_protocol.specs.Node.{NodeHas as SecondaryHas};
ghost use Rattle.settlement.specs.Settled.{AreAll, AreEntries, WereHonest, compared, is_completed, is_read_fault, kept, numbers, settled, with_unmarked};

use crate::compare::unmarked;
use blocks::{Refusal, Store};
use link::{FrameIn, FrameOut};
use primary::{Fate, JournalEntry, Primary, Receipt};
use secondary::Secondary;

/// The counts of two nodes at rest.
#[derive(Debug, PartialEq, Eq, Clone, Copy)]
pub struct Settled {
    /// How many items of the primary's last connection were sent.
    pub sent: u32,
    /// How many items the secondary took on that connection: 0 if it never opened it.
    pub taken: u32,
    /// How many writes and resync items among those are applied.
    pub applied: u32,
    /// How many receipts are confirmed: all that were given.
    pub confirmed: u64,
    /// On how many unmarked blocks the disks differ. A block that only one of them has counts.
    pub unmarked: u32,
}

/// The counts of two nodes at rest, without a comparison of their disks.
#[derive(Debug, PartialEq, Eq, Clone, Copy)]
pub struct Confirmed {
    /// How many items of the primary's last connection were sent.
    pub sent: u32,
    /// How many items the secondary took on that connection: 0 if it never opened it.
    pub taken: u32,
    /// How many writes and resync items among those are applied.
    pub applied: u32,
    /// How many receipts are confirmed: all that were given.
    pub confirmed: u64,
}

/// Compares two nodes at rest, and the callers' receipts with the journal.
///
/// Returns `NotDrained` (36) unless both ends are closed, nothing is pending at the secondary, and the primary's
/// disk has done or failed every write; else `StrangeReceipt` (19) if a receipt matches no entry of the journal, or
/// is given twice; else `ReadFault` (14) if a disk fails a read. It changes neither node but for the disks' counts
/// of faults, and takes no memory; it takes time for each receipt, each accepted write and each block.
///
/// The secondary knows `taken` and `applied` of its own last connection alone. If that is numbered above the
/// primary's last one, which no session brings about, both are 0.
///
/// Of any two nodes it says that they are at rest (`rest`), and that each receipt is that of an entry of the primary's journal,
/// none given twice (`entries`). Of joined nodes that began with honest identifiers it says all that is promised of a mirror:
/// what a completed write has at the peer (`settles`), that no difference is lost (`settles`), and that the peer's disk has an
/// order of writes (`order`).
pub fn settle<
    O: FrameOut + Drop,
    I: FrameIn + Drop,
    S: Store + Drop,
    P: FrameOut + Drop,
    J: FrameIn + Drop,
    T: Store + Drop,
>(
    primary: &mut Primary<O, I, S>,
    secondary: &mut Secondary<P, J, T>,
    receipts: &[Receipt],
) -> Result<Settled, Refusal>
    ensures kept { IsTrue primary.new.faithful → IsTrue secondary.new.faithful → (p : PrimaryHistory) (s : SecondaryHistory) → PrimaryHas (primary_node primary.old) p → SecondaryHas (secondary_node secondary.old) s
        → settled result ≡ settle p (kept s) receipts.now (is_read_fault result) }
    ensures history { secondary.old.core.number ≤ primary.old.core.connections
        → IsTrue primary.new.faithful → IsTrue secondary.new.faithful → (p : PrimaryHistory) (s : SecondaryHistory) → PrimaryHas (primary_node primary.old) p → SecondaryHas (secondary_node secondary.old) s
        → settled result ≡ settle p s receipts.now (is_read_fault result) }
    ensures primary { primary.new ≡ record primary.old { faults = primary.new.faults; steady = primary.new.steady; faithful = primary.new.faithful } }
    ensures secondary { secondary.new ≡ record secondary.old { faults = secondary.new.faults; steady = secondary.new.steady; faithful = secondary.new.faithful } }
    ensures falls { (IsTrue primary.new.faithful → IsTrue primary.old.faithful) × (IsTrue secondary.new.faithful → IsTrue secondary.old.faithful) }
    ensures sure { primary.old.steady ≡ true → secondary.old.steady ≡ true
        → (primary.new.faithful ≡ primary.old.faithful) × (secondary.new.faithful ≡ secondary.old.faithful) }
    ensures fault { result ≡ Err ReadFault → (primary.old.faults < primary.new.faults) ⊎ (secondary.old.faults < secondary.new.faults) }
    ensures uncounted { (result ≡ Err ReadFault → ⊥) → (primary.new.faults ≡ primary.old.faults) × (secondary.new.faults ≡ secondary.old.faults) }
    ensures works { primary.old.steady ≡ true → secondary.old.steady ≡ true
        → (primary.new.steady ≡ true) × (secondary.new.steady ≡ true) × (result ≡ Err ReadFault → ⊥) }
    ensures settles { secondary.old.core.number ≤ primary.old.core.connections
        → IfOk result (λ n. IsTrue primary.new.faithful → IsTrue secondary.new.faithful → (p : PrimaryHistory) (s : SecondaryHistory) → PrimaryHas (primary_node primary.old) p → SecondaryHas (secondary_node secondary.old) s
        → IsJoined p s → WereHonest p s → Settles p s receipts.now (numbers n)) }
    ensures anyhow { secondary.old.core.number ≤ primary.old.core.connections
        → IfOk result (λ n. IsTrue primary.new.faithful → IsTrue secondary.new.faithful → (p : PrimaryHistory) (s : SecondaryHistory) → PrimaryHas (primary_node primary.old) p → SecondaryHas (secondary_node secondary.old) s
        → IsJoined p s → SettlesAnyhow p s receipts.now (numbers n)) }
    ensures rest { OnOk result ((p : PrimaryHistory) (s : SecondaryHistory) → PrimaryHas (primary_node primary.old) p → SecondaryHas (secondary_node secondary.old) s
        → is_at_rest p s ≡ true) }
    ensures entries { OnOk result ((p : PrimaryHistory) → PrimaryHas (primary_node primary.old) p → AreEntries p receipts.now) }
    ensures order { OnOk result ((p : PrimaryHistory) (s : SecondaryHistory) → PrimaryHas (primary_node primary.old) p → SecondaryHas (secondary_node secondary.old) s
        → IsJoined p s → WereHonest p s → IsUnharmed p s → KeepsWriteOrder p s) }
{
    if !is_at_rest(primary, secondary) {
        return Err(Refusal::NotDrained);
    }
    if !primary.confirm(receipts) {
        return Err(Refusal::StrangeReceipt);
    }
    let unmarked = unmarked(primary, secondary)?;
    let (taken, applied) = items_at(secondary, primary.connection_number());
    Ok(Settled {
        sent: primary.items_sent(),
        taken,
        applied,
        confirmed: receipts.len() as u64,
        unmarked,
    })
}

/// Compares the callers' receipts of two nodes at rest with the journal, as `settle` does, and reads no disk.
///
/// Returns `NotDrained` (36) unless both ends are closed, nothing is pending at the secondary, and the primary's
/// disk has done or failed every write; else `StrangeReceipt` (19) if a receipt matches no entry of the journal, or
/// is given twice. It changes neither node, and takes no memory; it takes time for each receipt and each accepted write.
///
/// Of any two nodes it says what `settle` does (`rest`, `entries`), and of joined ones what `settle` says, the order of writes too: that no
/// difference is lost follows from both histories, and needs no comparison.
pub fn confirm<
    O: FrameOut + Drop,
    I: FrameIn + Drop,
    S: Store + Drop,
    P: FrameOut + Drop,
    J: FrameIn + Drop,
    T: Store + Drop,
>(
    primary: &mut Primary<O, I, S>,
    secondary: &Secondary<P, J, T>,
    receipts: &[Receipt],
) -> Result<Confirmed, Refusal>
    ensures kept { (p : PrimaryHistory) (s : SecondaryHistory) → PrimaryHas (primary_node primary.old) p → SecondaryHas (secondary_node secondary.now) s
        → compared (unmarked_differences p s) result ≡ settle p (kept s) receipts.now false }
    ensures history { secondary.now.core.number ≤ primary.old.core.connections
        → (p : PrimaryHistory) (s : SecondaryHistory) → PrimaryHas (primary_node primary.old) p → SecondaryHas (secondary_node secondary.now) s
        → compared (unmarked_differences p s) result ≡ settle p s receipts.now false }
    ensures same { primary.new ≡ primary.old }
    ensures settles { secondary.now.core.number ≤ primary.old.core.connections
        → IfOk result (λ n. (p : PrimaryHistory) (s : SecondaryHistory) → PrimaryHas (primary_node primary.old) p → SecondaryHas (secondary_node secondary.now) s
        → IsJoined p s → WereHonest p s → Settles p s receipts.now (with_unmarked (unmarked_differences p s) n)) }
    ensures anyhow { secondary.now.core.number ≤ primary.old.core.connections
        → IfOk result (λ n. (p : PrimaryHistory) (s : SecondaryHistory) → PrimaryHas (primary_node primary.old) p → SecondaryHas (secondary_node secondary.now) s
        → IsJoined p s → SettlesAnyhow p s receipts.now (with_unmarked (unmarked_differences p s) n)) }
    ensures rest { OnOk result ((p : PrimaryHistory) (s : SecondaryHistory) → PrimaryHas (primary_node primary.old) p → SecondaryHas (secondary_node secondary.now) s
        → is_at_rest p s ≡ true) }
    ensures entries { OnOk result ((p : PrimaryHistory) → PrimaryHas (primary_node primary.old) p → AreEntries p receipts.now) }
    ensures order { OnOk result ((p : PrimaryHistory) (s : SecondaryHistory) → PrimaryHas (primary_node primary.old) p → SecondaryHas (secondary_node secondary.now) s
        → IsJoined p s → WereHonest p s → IsUnharmed p s → KeepsWriteOrder p s) }
{
    if !is_at_rest(primary, secondary) {
        return Err(Refusal::NotDrained);
    }
    let are_found = primary.confirm(receipts);
    if !are_found {
        return Err(Refusal::StrangeReceipt);
    }
    let sent = primary.items_sent();
    let confirmed = receipts.len() as u64;
    let (taken, applied) = items_at(secondary, primary.connection_number());
    Ok(Confirmed {
        sent,
        taken,
        applied,
        confirmed,
    })
}

/// Compares the callers' receipts of two nodes at rest with the journal, as `confirm` does, and asks for all of them: also returns
/// `StrangeReceipt` (19) if a completed write has no receipt among these. So they are all that the session gave, each once, and no
/// completed write is left out of what is settled.
pub fn confirm_all<
    O: FrameOut + Drop,
    I: FrameIn + Drop,
    S: Store + Drop,
    P: FrameOut + Drop,
    J: FrameIn + Drop,
    T: Store + Drop,
>(
    primary: &mut Primary<O, I, S>,
    secondary: &Secondary<P, J, T>,
    receipts: &[Receipt],
) -> Result<Confirmed, Refusal>
    ensures same { primary.new ≡ primary.old }
    ensures settles { secondary.now.core.number ≤ primary.old.core.connections
        → IfOk result (λ n. (p : PrimaryHistory) (s : SecondaryHistory) → PrimaryHas (primary_node primary.old) p → SecondaryHas (secondary_node secondary.now) s
        → IsJoined p s → WereHonest p s → Settles p s receipts.now (with_unmarked (unmarked_differences p s) n)) }
    ensures anyhow { secondary.now.core.number ≤ primary.old.core.connections
        → IfOk result (λ n. (p : PrimaryHistory) (s : SecondaryHistory) → PrimaryHas (primary_node primary.old) p → SecondaryHas (secondary_node secondary.now) s
        → IsJoined p s → SettlesAnyhow p s receipts.now (with_unmarked (unmarked_differences p s) n)) }
    ensures entries { OnOk result ((p : PrimaryHistory) → PrimaryHas (primary_node primary.old) p → AreEntries p receipts.now) }
    ensures all { OnOk result ((p : PrimaryHistory) → PrimaryHas (primary_node primary.old) p → AreAll p receipts.now) }
{
    let confirmed = confirm(primary, secondary, receipts)?;
    if completed_writes(primary) != receipts.len() {
        return Err(Refusal::StrangeReceipt);
    }
    Ok(confirmed)
}

// Returns how many writes were completed.
fn completed_writes<O: FrameOut + Drop, I: FrameIn + Drop, S: Store + Drop>(
    primary: &Primary<O, I, S>,
) -> usize
    ensures { result ≡ count_by is_completed primary.now.core.entries }
{
    primary
        .journal()
        .iter()
        .filter(|entry| is_completed(entry))
        .count()
}

// Returns whether a write was completed.
fn is_completed(entry: &JournalEntry) -> bool
    ensures { result ≡ is_completed entry.now }
{
    matches!(entry.fate(), Fate::Completed { .. })
}

/// Returns whether two nodes are at rest: both ends are closed, nothing is pending at the secondary, and the primary's
/// disk has done or failed every write.
pub fn is_at_rest<
    O: FrameOut + Drop,
    I: FrameIn + Drop,
    S: Store + Drop,
    P: FrameOut + Drop,
    J: FrameIn + Drop,
    T: Store + Drop,
>(primary: &Primary<O, I, S>, secondary: &Secondary<P, J, T>) -> bool
    ensures { (p : PrimaryHistory) (s : SecondaryHistory) → PrimaryHas (primary_node primary.now) p → SecondaryHas (secondary_node secondary.now) s
        → result ≡ is_at_rest p s }
{
    !primary.is_open()
        && !secondary.is_open()
        && secondary.is_drained()
        && primary.next_local().is_none()
}

// Returns how many items were taken on connection `number`, and how many of them are applied; 0 if it is not the
// secondary's last one.
fn items_at<P: FrameOut + Drop, J: FrameIn + Drop, T: Store + Drop>(
    secondary: &Secondary<P, J, T>,
    number: u32,
) -> (u32, u32)
    ensures { (s : SecondaryHistory) → SecondaryHas (secondary_node secondary.now) s
        → (result.0 ≡ length (items_taken (secondary_connection_at (kept s) number))) × (result.1 ≡ applied_items (secondary_connection_at (kept s) number)) }
{
    if secondary.connection_number() != number {
        return (0, 0);
    }
    (secondary.items_taken(), secondary.items_applied())
}
