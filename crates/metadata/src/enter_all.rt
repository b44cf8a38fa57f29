//! Entering every extent of a device.
ghost use Rattle.std.specs.Prelude.{◌≡◌, ◌⊎◌, ◌+◌, ◌<◌, ◌≤◌, ℕ, List, Bool, true, false, not, Err, length, IsTrue, OnOk, OnErr, MatchOption};
ghost use Rattle.metadata.specs.declared.fault.MetadataFault.TheVariants.{Broken};
ghost use Rattle.metadata.specs.declared.layout.TheConstants.{MARKS_AT, MAX_EXTENTS};
ghost use Rattle.metadata.specs.Calls.{Follows, Leaves};
ghost use Rattle.metadata.specs.Says.{entered_in};
ghost use Rattle.metadata.specs.Steps.{MoreEntries, MayEnter, EntersMissing};
ghost use Rattle.metadata.specs.State.{is_entered, EachEntered, IsMissing};

use crate::layout::EXTENTS_AT;
use crate::metadata::{MAX_MARKS, ONES};
use crate::{FileFault, Metadata, MetadataFault, StableFile};

/// Extents beside each other that are not entered, as many as one write enters.
#[derive(Drop)]
struct Run {
    first: usize,
    count: usize,
}

impl<F: StableFile> Metadata<F> {
    /// Enters every extent of the device, with a write for each portion of entries and one sync. At `Ok` each crash leaves all of them
    /// entered. An extent that is entered is not written again, so whatever a crash leaves meanwhile has it as it was.
    pub fn enter_all(&mut self) -> Result<(), MetadataFault>
        ensures refused { self.old.is_broken ≡ true → (result ≡ Err Broken) × (self.new ≡ self.old) }
        ensures breaks { OnErr result (self.new ≡ record self.old { file = self.new.file; is_broken = true }) }
        ensures cause { OnErr result ((self.old.is_broken ≡ true) ⊎ (F.faults self.old.file < F.faults self.new.file)) }
        ensures falls { IsTrue (F.faithful self.new.file) → IsTrue (F.faithful self.old.file) }

        ensures memory { OnOk result (self.new ≡ record self.old { file = self.new.file; entries = self.new.entries }) }
        ensures size { OnOk result (length self.new.entries ≡ length self.old.entries) }
        ensures entries { OnOk result ((x : ℕ) → x < length self.old.entries → is_entered self.new.entries x ≡ true) }
        ensures says { OnOk result (IsTrue (F.faithful self.new.file) → MoreEntries (F.seen self.old.file) (F.seen self.new.file)) }
        ensures entered { OnOk result (IsTrue (F.faithful self.new.file) → (x : ℕ) → x < length self.old.entries → IsTrue (entered_in (F.seen self.new.file) x)) }
        ensures durable { OnOk result (IsTrue (F.faithful self.new.file) → (c : List ℕ) → F.may_leave self.new.file c → (x : ℕ) → x < length self.old.entries → IsTrue (entered_in c x)) }
        ensures any_moment { self.old.is_broken ≡ false → IsTrue (F.faithful self.new.file)
            → Leaves F.moment F.left_since F.may_leave (MayEnter self.old.entries) self.old.file self.new.file }
    {
        if self.is_broken {
            return Err(MetadataFault::Broken);
        }
        self.is_broken = true;
        write_missing(&mut self.file, &self.entries)?;
        self.file.sync()?;
        self.entries.fill(1);
        self.is_broken = false;
        Ok(())
    }
}

/// Writes the entry of each extent that is not entered. It writes over no other entry: a crash meanwhile may leave any byte in the
/// range of a write, though the write were of the bytes that are there.
fn write_missing<F: StableFile>(file: &mut F, entries: &[u8]) -> Result<(), FileFault>
    requires { length entries.now ≤ MAX_EXTENTS }

    ensures written { OnOk result (MARKS_AT ≤ length (F.seen file.old) → EntersMissing entries.now (length entries.now) (F.seen file.old) (F.seen file.new)) }
    ensures crash { OnOk result (((d : List ℕ) → F.may_leave file.old d → MARKS_AT ≤ length d)
        → Follows (MayEnter entries.now) (F.may_leave file.old) (F.may_leave file.new)) }
    ensures any_moment { ((d : List ℕ) → F.may_leave file.old d → MARKS_AT ≤ length d)
        → Leaves F.moment F.left_since F.may_leave (MayEnter entries.now) file.old file.new }
    ensures still_faithful { F.faithful file.new ≡ F.faithful file.old }
    ensures uncounted { OnOk result (F.faults file.new ≡ F.faults file.old) }
    ensures counted { OnErr result (F.faults file.old < F.faults file.new) }
{
    let mut done = 0;
    while let Some(run) = next_missing(entries, done) {
        file.write_at(EXTENTS_AT + run.first as u64, &ONES[..run.count])?;
        done = run.first + run.count;
    }
    Ok(())
}

/// Returns the first extents from `from` on that are not entered, or `None` if there are none.
fn next_missing(entries: &[u8], from: usize) -> Option<Run>
    requires { from ≤ length entries.now }
    ensures { MatchOption result (EachEntered entries.now true from (length entries.now)) (λ run. IsMissing entries.now from run.first run.count) }
{
    let first = end_of_run(entries, true, from, entries.len());
    if first == entries.len() {
        return None;
    }
    let most = (entries.len() - first).min(MAX_MARKS as usize);
    let end = end_of_run(entries, false, first, first + most);
    Some(Run {
        first,
        count: end - first,
    })
}

/// Returns the first extent from `from` on whose entry is not as `entered` says, or `to` if none before `to` is.
fn end_of_run(entries: &[u8], entered: bool, from: usize, to: usize) -> usize
    requires order { from ≤ to }
    requires inside { to ≤ length entries.now }
    ensures after { from ≤ result }
    ensures before { result ≤ to }
    ensures run { EachEntered entries.now entered from result }
    ensures ends { result < to → is_entered entries.now result ≡ not entered }
{
    for extent in from..to {
        if (entries[extent] != 0) != entered {
            return extent;
        }
    }
    to
}
