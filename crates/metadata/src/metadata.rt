//! The metadata of one disk.
ghost use Rattle.std.specs.Prelude.{◌≡◌, ◌⊎◌, ◌+◌, ◌<◌, ◌≤◌, ℕ, List, true, false, Ok, Err, length, slice_set, drop, take, IsTrue, IsOk, OnOk, OnErr};
ghost use Rattle.blocks.specs.declared.block.TheConstants.{MAX_DEVICE_BLOCKS};
ghost use Rattle.metadata.specs.declared.fault.MetadataFault.TheVariants.{Broken};
ghost use Rattle.metadata.specs.declared.layout.TheConstants.{MARKS_AT, MAX_EXTENTS};
ghost use Rattle.metadata.specs.Calls.{Holds, Leaves, Only};
ghost use Rattle.metadata.specs.Says.{entered_in, marked_in, opened_identifiers, extents_of};
ghost use Rattle.metadata.specs.Steps.{OnlyEntry, OnlyMarks, OnlyIdentifiers, Unchanged, IsIn};
ghost use Rattle.metadata.specs.State.{is_entered, WithEntry, WithoutEntry, Stands};

use crate::codec::seal;
use crate::judge::slot_words;
use crate::layout::{EXTENTS_AT, MARKS_AT, SLOT_BYTES};
use crate::slots::replace_slot;
use crate::{Header, Identifiers, MetadataFault, StableFile};
use blocks::{Block, Extent};
use std::marker::Model;

/// The most blocks that one call marks or unmarks, and the most extents that one write enters: one write of the file.
pub const MAX_MARKS: u64 = 4096;

/// A byte for each block or extent that one write marks or enters.
pub(crate) const ONES: [u8; MAX_MARKS as usize] = [1; MAX_MARKS as usize];

const ZEROS: [u8; MAX_MARKS as usize] = [0; MAX_MARKS as usize];

/// The metadata of one disk, in a file of its own: which extents are entered, which blocks are marked, and the disk's identifiers.
/// In memory it has a byte for each extent and no mark. `open` and `create` make it, and no other call takes memory.
///
/// A call of the file that fails breaks the metadata: each later call is refused with `Broken` and touches nothing. What the file
/// has then only another `open` finds out. Clauses on the file's bytes hold as long as it is `faithful`.
#[derive(Drop)]
pub struct Metadata<F: StableFile> {
    pub(crate) file: F,
    pub(crate) header: Header,
    pub(crate) identifiers: Identifiers,
    // The slot that counts, 0 or 1.
    pub(crate) selected: u8,
    // A byte for each extent, not 0 if it is entered.
    pub(crate) entries: Vec<u8>,
    pub(crate) is_broken: bool,
}

impl<F: StableFile> Model for Metadata<F> {
    ghost use Rattle.metadata.specs.State.{MetadataState, IsMetadata};

    ghost Value = { MetadataState F };

    ghost view = { λ m. record {
      file = m.file;
      header = m.header;
      identifiers = m.identifiers;
      entries = m.entries.items;
      is_broken = m.is_broken;
    } };

    ghost invariant = { λ m. IsMetadata (F.StableFile.faithful m.file) (F.StableFile.seen m.file) (F.StableFile.may_leave m.file) m.header m.identifiers m.selected m.entries.items m.is_broken };
}

impl<F: StableFile> Metadata<F> {
    /// Returns what was written once.
    pub fn header(&self) -> Header
        ensures { result ≡ self.now.header }
    {
        self.header
    }

    /// Returns the identifiers that were saved last.
    pub fn identifiers(&self) -> Identifiers
        ensures { result ≡ self.now.identifiers }
    {
        self.identifiers
    }

    /// Returns whether a call of the file has failed, so that each further call is refused.
    pub fn is_broken(&self) -> bool
        ensures broken { result ≡ self.now.is_broken }
        ensures sized { length self.now.entries ≡ extents_of self.now.header.blocks }
        ensures few { self.now.header.blocks ≤ MAX_DEVICE_BLOCKS }
        ensures stands { result ≡ false → IsTrue (F.faithful self.now.file)
            → Stands self.now.header self.now.identifiers self.now.entries (F.seen self.now.file) (F.may_leave self.now.file) }
    {
        self.is_broken
    }

    /// Returns how many extents the device has: at most `MAX_EXTENTS`.
    pub fn extents(&self) -> u64
        ensures count { result ≡ length self.now.entries }
        ensures of_blocks { result ≡ extents_of self.now.header.blocks }
        ensures few { result ≤ MAX_EXTENTS }
    {
        self.entries.len() as u64
    }

    /// Returns whether the extent is entered.
    pub fn is_entered(&self, extent: Extent) -> bool
        requires { extent.0 < length self.now.entries }
        ensures { result ≡ is_entered self.now.entries extent.0 }
    {
        self.entries[extent.0 as usize] != 0
    }

    /// Returns the file.
    pub fn into_file(self) -> F
        ensures { result ≡ self.file }
    {
        let Metadata {
            file,
            header: _,
            identifiers: _,
            selected: _,
            entries: _,
            is_broken: _,
        } = self;
        file
    }

    /// Enters the extent, with one write and a sync. Does nothing if it is entered. At `Ok` each crash leaves it entered.
    pub fn enter(&mut self, extent: Extent) -> Result<(), MetadataFault>
        requires inside { extent.0 < length self.old.entries }

        ensures refused { self.old.is_broken ≡ true → (result ≡ Err Broken) × (self.new ≡ self.old) }
        ensures breaks { OnErr result (self.new ≡ record self.old { file = self.new.file; is_broken = true }) }
        ensures cause { OnErr result ((self.old.is_broken ≡ true) ⊎ (F.faults self.old.file < F.faults self.new.file)) }
        ensures falls { IsTrue (F.faithful self.new.file) → IsTrue (F.faithful self.old.file) }

        ensures already { self.old.is_broken ≡ false → is_entered self.old.entries extent.0 ≡ true → IsOk result × (self.new ≡ self.old) }
        ensures memory { OnOk result (self.new ≡ record self.old { file = self.new.file; entries = self.new.entries }) }
        ensures entry { OnOk result (WithEntry extent.0 self.old.entries self.new.entries) }
        ensures says { OnOk result (IsTrue (F.faithful self.new.file) → OnlyEntry extent.0 (F.seen self.old.file) (F.seen self.new.file)) }
        ensures entered { OnOk result (IsTrue (F.faithful self.new.file) → IsTrue (entered_in (F.seen self.new.file) extent.0)) }
        ensures durable { OnOk result (IsTrue (F.faithful self.new.file) → (c : List ℕ) → F.may_leave self.new.file c → IsTrue (entered_in c extent.0)) }
        ensures any_moment { self.old.is_broken ≡ false → IsTrue (F.faithful self.new.file)
            → Leaves F.moment F.left_since F.may_leave (OnlyEntry extent.0) self.old.file self.new.file }
    {
        if self.is_broken {
            return Err(MetadataFault::Broken);
        }
        let index = extent.0 as usize;
        if self.entries[index] != 0 {
            return Ok(());
        }
        self.is_broken = true;
        self.file.write_at(EXTENTS_AT + extent.0, &[1])?;
        self.file.sync()?;
        self.entries[index] = 1;
        self.is_broken = false;
        Ok(())
    }

    /// Takes the extent out, with one write and no sync. Until a sync a crash may leave it entered. After a failed call the extent
    /// counts as left, unless the call was refused as `Broken`.
    pub fn leave(&mut self, extent: Extent) -> Result<(), MetadataFault>
        requires inside { extent.0 < length self.old.entries }

        ensures refused { self.old.is_broken ≡ true → (result ≡ Err Broken) × (self.new ≡ self.old) }
        ensures breaks { OnErr result ((self.old.is_broken ≡ true → ⊥) → self.new ≡ record self.old { file = self.new.file; entries = self.new.entries; is_broken = true }) }
        ensures cause { OnErr result ((self.old.is_broken ≡ true) ⊎ (F.faults self.old.file < F.faults self.new.file)) }
        ensures falls { IsTrue (F.faithful self.new.file) → IsTrue (F.faithful self.old.file) }

        ensures memory { OnOk result (self.new ≡ record self.old { file = self.new.file; entries = self.new.entries }) }
        ensures entry { self.old.is_broken ≡ false → WithoutEntry extent.0 self.old.entries self.new.entries }
        ensures says { OnOk result (IsTrue (F.faithful self.new.file) → OnlyEntry extent.0 (F.seen self.old.file) (F.seen self.new.file)) }
        ensures left { OnOk result (IsTrue (F.faithful self.new.file) → entered_in (F.seen self.new.file) extent.0 ≡ false) }
        ensures any_moment { self.old.is_broken ≡ false → IsTrue (F.faithful self.new.file)
            → Leaves F.moment F.left_since F.may_leave (OnlyEntry extent.0) self.old.file self.new.file }
    {
        if self.is_broken {
            return Err(MetadataFault::Broken);
        }
        self.is_broken = true;
        // Before the write: if it fails, the file may have the extent entered or not.
        self.entries[extent.0 as usize] = 0;
        self.file.write_at(EXTENTS_AT + extent.0, &[0])?;
        self.is_broken = false;
        Ok(())
    }

    /// Marks these blocks, with one write and no sync.
    pub fn mark(&mut self, first: Block, count: u64) -> Result<(), MetadataFault>
        requires inside { first.0 + count ≤ self.old.header.blocks }
        requires few { count ≤ MAX_MARKS }

        ensures refused { self.old.is_broken ≡ true → (result ≡ Err Broken) × (self.new ≡ self.old) }
        ensures breaks { OnErr result (self.new ≡ record self.old { file = self.new.file; is_broken = true }) }
        ensures cause { OnErr result ((self.old.is_broken ≡ true) ⊎ (F.faults self.old.file < F.faults self.new.file)) }
        ensures falls { IsTrue (F.faithful self.new.file) → IsTrue (F.faithful self.old.file) }

        ensures memory { OnOk result (self.new ≡ record self.old { file = self.new.file }) }
        ensures says { OnOk result (IsTrue (F.faithful self.new.file) → OnlyMarks first.0 count (F.seen self.old.file) (F.seen self.new.file)) }
        ensures marked { OnOk result (IsTrue (F.faithful self.new.file) → (b : ℕ) → IsIn first.0 count b → IsTrue (marked_in (F.seen self.new.file) b)) }
        ensures any_moment { self.old.is_broken ≡ false → IsTrue (F.faithful self.new.file)
            → Leaves F.moment F.left_since F.may_leave (OnlyMarks first.0 count) self.old.file self.new.file }
    {
        self.write_marks(first, &ONES[..count as usize])
    }

    /// Takes the marks of these blocks away, with one write and no sync.
    pub fn unmark(&mut self, first: Block, count: u64) -> Result<(), MetadataFault>
        requires inside { first.0 + count ≤ self.old.header.blocks }
        requires few { count ≤ MAX_MARKS }

        ensures refused { self.old.is_broken ≡ true → (result ≡ Err Broken) × (self.new ≡ self.old) }
        ensures breaks { OnErr result (self.new ≡ record self.old { file = self.new.file; is_broken = true }) }
        ensures cause { OnErr result ((self.old.is_broken ≡ true) ⊎ (F.faults self.old.file < F.faults self.new.file)) }
        ensures falls { IsTrue (F.faithful self.new.file) → IsTrue (F.faithful self.old.file) }

        ensures memory { OnOk result (self.new ≡ record self.old { file = self.new.file }) }
        ensures says { OnOk result (IsTrue (F.faithful self.new.file) → OnlyMarks first.0 count (F.seen self.old.file) (F.seen self.new.file)) }
        ensures unmarked { OnOk result (IsTrue (F.faithful self.new.file) → (b : ℕ) → IsIn first.0 count b → marked_in (F.seen self.new.file) b ≡ false) }
        ensures any_moment { self.old.is_broken ≡ false → IsTrue (F.faithful self.new.file)
            → Leaves F.moment F.left_since F.may_leave (OnlyMarks first.0 count) self.old.file self.new.file }
    {
        self.write_marks(first, &ZEROS[..count as usize])
    }

    // Writes these bytes as the marks of the blocks from `first` on.
    fn write_marks(&mut self, first: Block, bytes: &[u8]) -> Result<(), MetadataFault>
        requires inside { first.0 + length bytes.now ≤ self.old.header.blocks }

        ensures refused { self.old.is_broken ≡ true → (result ≡ Err Broken) × (self.new ≡ self.old) }
        ensures breaks { OnErr result (self.new ≡ record self.old { file = self.new.file; is_broken = true }) }
        ensures cause { OnErr result ((self.old.is_broken ≡ true) ⊎ (F.faults self.old.file < F.faults self.new.file)) }
        ensures falls { IsTrue (F.faithful self.new.file) → IsTrue (F.faithful self.old.file) }

        ensures memory { OnOk result (self.new ≡ record self.old { file = self.new.file }) }
        ensures says { OnOk result (IsTrue (F.faithful self.new.file) → OnlyMarks first.0 (length bytes.now) (F.seen self.old.file) (F.seen self.new.file)) }
        ensures written { OnOk result (Holds (F.seen self.new.file) (MARKS_AT + first.0) bytes.now) }
        ensures any_moment { self.old.is_broken ≡ false → IsTrue (F.faithful self.new.file)
            → Leaves F.moment F.left_since F.may_leave (OnlyMarks first.0 (length bytes.now)) self.old.file self.new.file }
    {
        if self.is_broken {
            return Err(MetadataFault::Broken);
        }
        // Every block of the device has a number below 2^32.
        let _blocks = self.header.blocks;
        self.is_broken = true;
        self.file.write_at(MARKS_AT + first.0, bytes)?;
        self.is_broken = false;
        Ok(())
    }

    /// Reads the marks of the blocks from `first` on, a byte for each, not 0 if the block is marked.
    pub fn marks(&mut self, first: Block, buffer: &mut [u8]) -> Result<(), MetadataFault>
        requires inside { first.0 + length buffer.old ≤ self.old.header.blocks }

        ensures refused { self.old.is_broken ≡ true → (result ≡ Err Broken) × (self.new ≡ self.old) }
        ensures breaks { OnErr result (self.new ≡ record self.old { file = self.new.file; is_broken = true }) }
        ensures cause { OnErr result ((self.old.is_broken ≡ true) ⊎ (F.faults self.old.file < F.faults self.new.file)) }
        ensures falls { IsTrue (F.faithful self.new.file) → IsTrue (F.faithful self.old.file) }

        ensures memory { OnOk result (self.new ≡ record self.old { file = self.new.file }) }
        ensures seen { F.seen self.new.file ≡ F.seen self.old.file }
        ensures read { OnOk result (IsTrue (F.faithful self.new.file) → buffer.new ≡ take (length buffer.old) (drop (MARKS_AT + first.0) (F.seen self.old.file))) }
        ensures any_moment { Leaves F.moment F.left_since F.may_leave Unchanged self.old.file self.new.file }
    {
        if self.is_broken {
            return Err(MetadataFault::Broken);
        }
        // Every block of the device has a number below 2^32.
        let _blocks = self.header.blocks;
        self.is_broken = true;
        self.file.read_at(MARKS_AT + first.0, buffer)?;
        self.is_broken = false;
        Ok(())
    }

    /// After it, a crash leaves the file as it is now.
    pub fn sync(&mut self) -> Result<(), MetadataFault>
        ensures refused { self.old.is_broken ≡ true → (result ≡ Err Broken) × (self.new ≡ self.old) }
        ensures breaks { OnErr result (self.new ≡ record self.old { file = self.new.file; is_broken = true }) }
        ensures cause { OnErr result ((self.old.is_broken ≡ true) ⊎ (F.faults self.old.file < F.faults self.new.file)) }
        ensures falls { IsTrue (F.faithful self.new.file) → IsTrue (F.faithful self.old.file) }

        ensures memory { OnOk result (self.new ≡ record self.old { file = self.new.file }) }
        ensures seen { F.seen self.new.file ≡ F.seen self.old.file }
        ensures durable { OnOk result (Only (F.seen self.new.file) (F.may_leave self.new.file)) }
        ensures any_moment { Leaves F.moment F.left_since F.may_leave Unchanged self.old.file self.new.file }
    {
        if self.is_broken {
            return Err(MetadataFault::Broken);
        }
        self.is_broken = true;
        self.file.sync()?;
        self.is_broken = false;
        Ok(())
    }

    /// Saves the identifiers: writes the slot that does not count, syncs, has it count, and syncs. At `Ok` each crash leaves these
    /// identifiers; whatever a crash leaves meanwhile has the old ones or these.
    pub fn save(&mut self, identifiers: &Identifiers) -> Result<(), MetadataFault>
        ensures refused { self.old.is_broken ≡ true → (result ≡ Err Broken) × (self.new ≡ self.old) }
        ensures breaks { OnErr result (self.new ≡ record self.old { file = self.new.file; is_broken = true }) }
        ensures cause { OnErr result ((self.old.is_broken ≡ true) ⊎ (F.faults self.old.file < F.faults self.new.file)) }
        ensures falls { IsTrue (F.faithful self.new.file) → IsTrue (F.faithful self.old.file) }

        ensures memory { OnOk result (self.new ≡ record self.old { file = self.new.file; identifiers = identifiers.now }) }
        ensures says { OnOk result (IsTrue (F.faithful self.new.file) → OnlyIdentifiers identifiers.now (F.seen self.old.file) (F.seen self.new.file)) }
        ensures saved { OnOk result (IsTrue (F.faithful self.new.file) → opened_identifiers (F.seen self.new.file) ≡ Ok identifiers.now) }
        ensures durable { OnOk result (Only (F.seen self.new.file) (F.may_leave self.new.file)) }
        ensures any_moment { self.old.is_broken ≡ false → IsTrue (F.faithful self.new.file)
            → Leaves F.moment F.left_since F.may_leave (OnlyIdentifiers identifiers.now) self.old.file self.new.file }
    {
        if self.is_broken {
            return Err(MetadataFault::Broken);
        }
        let mut slot = [0u8; SLOT_BYTES];
        seal(&slot_words(identifiers), &mut slot);
        let other = 1 - self.selected;
        self.is_broken = true;
        replace_slot(&mut self.file, other, &slot)?;
        self.selected = other;
        self.identifiers = *identifiers;
        self.is_broken = false;
        Ok(())
    }
}
