//! The end of a server, and the lines that it prints.
ghost use Rattle.std.specs.Prelude.{◌≡◌, false, None, IfSome, OnOk};
ghost use Rattle.std.specs.Io.KnownBytes.{Appends};
ghost use Rattle.program_values.specs.Text.{results_text};
ghost use Rattle.served_images.specs.Ends.{results};

use crate::fault::ServeFault;
use crate::totals::Totals;
use disk_pair::LastComparison;
use image_store::PerDisk;
use server_log::Style;
use std::io;
use std::io::Write;

/// What the sessions of a server left, and what became of its images.
#[derive(Drop)]
pub struct End<'a> {
    /// What stands before the lines of the log.
    pub style: Style,
    pub totals: Totals,
    /// What the comparison of the disks came to.
    pub found: LastComparison,
    /// The images' paths.
    pub files: PerDisk<&'a str>,
    /// Whether an image was replaced, or has another length, while it was served.
    pub changed: PerDisk<bool>,
    /// Whether an image may have kept parts of a write that failed.
    pub torn: PerDisk<bool>,
    /// Why a sync of an image failed, the first that did.
    pub unsynced: PerDisk<Option<io::Error>>,
    /// Whether a metadata file could not be written.
    pub is_metadata_broken: bool,
}

impl<'a> End<'a> {
    /// Prints the three lines, unless an image is no longer the file that was served. They are printed also if the disks may
    /// differ, which is a fault. Returns the first fault, and writes a line on `err` for each further one: what to do about it
    /// may be another thing.
    pub fn print<W: Write, E: Write>(&self, out: &mut W, err: &mut E) -> Result<(), ServeFault<'a>>
        ensures printed { OnOk result (Appends (W.contents out.old) (W.contents out.new) (results_text (results self.now.totals self.now.found.unmarked))) }
        ensures unchanged { OnOk result ((self.now.changed.local ≡ false) × (self.now.changed.peer ≡ false)) }
        ensures alike { OnOk result (IfSome self.now.found.unmarked (λ n. n ≡ 0) × (self.now.totals.marked ≡ 0)) }
        ensures read { OnOk result (self.now.found.is_unread ≡ false) }
        ensures whole { OnOk result ((self.now.torn.local ≡ false) × (self.now.torn.peer ≡ false)) }
        ensures synced { OnOk result ((self.now.unsynced.local ≡ None) × (self.now.unsynced.peer ≡ None)) }
        ensures kept { OnOk result (self.now.is_metadata_broken ≡ false) }
    {
        if self.changed.local || self.changed.peer {
            return self.tell(None, err);
        }
        match self.totals.results(self.found.unmarked).print(out) {
            Ok(()) => self.tell(None, err),
            Err(error) => self.tell(Some(ServeFault::Unwritten(error)), err),
        }
    }

    // Returns the first fault, which is `first` if there is one, and writes a line for each further one.
    fn tell<E: Write>(
        &self,
        first: Option<ServeFault<'a>>,
        err: &mut E,
    ) -> Result<(), ServeFault<'a>>
        ensures none { OnOk result (first.entry ≡ None) }
        ensures unchanged { OnOk result ((self.now.changed.local ≡ false) × (self.now.changed.peer ≡ false)) }
        ensures alike { OnOk result (IfSome self.now.found.unmarked (λ n. n ≡ 0) × (self.now.totals.marked ≡ 0)) }
        ensures read { OnOk result (self.now.found.is_unread ≡ false) }
        ensures whole { OnOk result ((self.now.torn.local ≡ false) × (self.now.torn.peer ≡ false)) }
        ensures synced { OnOk result ((self.now.unsynced.local ≡ None) × (self.now.unsynced.peer ≡ None)) }
        ensures kept { OnOk result (self.now.is_metadata_broken ≡ false) }
    {
        match self.report_others(first, err) {
            None => Ok(()),
            Some(fault) => Err(fault),
        }
    }

    // The same, with no fault as none.
    fn report_others<E: Write>(
        &self,
        first: Option<ServeFault<'a>>,
        err: &mut E,
    ) -> Option<ServeFault<'a>>
        ensures none { result ≡ None → first.entry ≡ None }
        ensures unchanged { result ≡ None → (self.now.changed.local ≡ false) × (self.now.changed.peer ≡ false) }
        ensures alike { result ≡ None → IfSome self.now.found.unmarked (λ n. n ≡ 0) × (self.now.totals.marked ≡ 0) }
        ensures read { result ≡ None → self.now.found.is_unread ≡ false }
        ensures whole { result ≡ None → (self.now.torn.local ≡ false) × (self.now.torn.peer ≡ false) }
        ensures synced { result ≡ None → (self.now.unsynced.local ≡ None) × (self.now.unsynced.peer ≡ None) }
        ensures kept { result ≡ None → self.now.is_metadata_broken ≡ false }
    {
        let style = self.style;
        let unmarked = self.found.unmarked.unwrap_or(0);
        let marked = self.totals.marked;
        let PerDisk { local, peer } = self.files;
        let mut first = first;
        first = first_fault_or(
            err,
            style,
            first,
            self.changed.local.then_some(ServeFault::Changed(local)),
        );
        first = first_fault_or(
            err,
            style,
            first,
            self.changed.peer.then_some(ServeFault::Changed(peer)),
        );
        first = first_fault_or(
            err,
            style,
            first,
            (unmarked > 0).then_some(ServeFault::Unmarked(unmarked)),
        );
        first = first_fault_or(
            err,
            style,
            first,
            self.found.is_unread.then_some(ServeFault::Unread),
        );
        first = first_fault_or(
            err,
            style,
            first,
            (marked > 0).then_some(ServeFault::Marked(marked)),
        );
        first = first_fault_or(
            err,
            style,
            first,
            self.torn.local.then_some(ServeFault::Torn(local)),
        );
        first = first_fault_or(
            err,
            style,
            first,
            self.torn.peer.then_some(ServeFault::Torn(peer)),
        );
        first = first_fault_or(err, style, first, unsynced(local, self.unsynced.local));
        first = first_fault_or(err, style, first, unsynced(peer, self.unsynced.peer));
        first_fault_or(
            err,
            style,
            first,
            self.is_metadata_broken
                .then_some(ServeFault::BrokenMetadata),
        )
    }
}

// Returns the first fault of these two, and writes a line for the other one if it is a further one.
fn first_fault_or<'a, E: Write>(
    err: &mut E,
    style: Style,
    first: Option<ServeFault<'a>>,
    next: Option<ServeFault<'a>>,
) -> Option<ServeFault<'a>>
    ensures { result ≡ None → (first.entry ≡ None) × (next.entry ≡ None) }
{
    if first.is_none() {
        return next;
    }
    if let Some(further) = next {
        let _ = writeln!(err, "{}{further}", style.before_fault());
    }
    first
}

// Returns the fault of an image whose sync failed for this reason, if one did.
fn unsynced(file: &str, error: Option<io::Error>) -> Option<ServeFault<'_>>
    ensures { result ≡ None → error ≡ None }
{
    match error {
        Some(error) => Some(ServeFault::Unsynced(file, error)),
        None => None,
    }
}
