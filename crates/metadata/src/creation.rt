//! Creating metadata in an empty file.
ghost use Rattle.std.specs.Prelude.{◌≡◌, ◌⊎◌, ◌<◌, ◌≤◌, List, [], ℕ, false, length, slice_index, IsTrue, IfOk, IfErr, OnOk, OnErr, replicate};
ghost use Rattle.metadata.specs.declared.fault.MetadataFault.TheVariants.{NoMemory, NotEmpty};
ghost use Rattle.metadata.specs.declared.layout.TheConstants.{HEADER_BYTES, SLOT_BYTES, MARKS_AT};
ghost use Rattle.metadata.specs.Calls.{Leaves, Only};
ghost use Rattle.metadata.specs.Says.{extents_of, selected_in};
ghost use Rattle.metadata.specs.Judged.{are_blocks};
ghost use Rattle.metadata.specs.State.{FileFailed, IsCreated, Creates, IsLaidOut, MagicLast};

use crate::codec::seal;
use crate::judge::{header_words, slot_words};
use crate::layout::{FIRST_SLOT_AT, HEADER_BYTES, MARKS_AT, SLOT_BYTES, WORD_BYTES};
use crate::{FileFault, Header, Identifiers, Metadata, MetadataFault, StableFile};
use blocks::EXTENT_BLOCKS;
use std::alloc::Global;

/// Creates metadata in an empty file: no extent entered, no block marked, and these identifiers. The magic is written last, behind a
/// sync of all the rest, so that a crash leaves a file that no `open` takes for metadata, or just what was created.
///
/// `NotEmpty` if the file is not empty, `NoMemory` if there is none for the entries, `File` if a call of the file fails. A refused
/// file is handed back.
pub fn create<F: StableFile>(
    alloc: Global,
    file: F,
    header: Header,
    identifiers: &Identifiers,
) -> Result<Metadata<F>, (MetadataFault, F)>
    requires { IsTrue (are_blocks header.blocks) }
    ensures whole { IfOk result (λ m. m.is_broken ≡ false) }
    ensures memory { IfOk result (λ m. (m.header ≡ header) × (m.identifiers ≡ identifiers.now) × (m.entries ≡ replicate (extents_of header.blocks) 0)) }
    ensures created { IfOk result (λ m. IsTrue (F.faithful m.file) → IsCreated header identifiers.now (F.seen m.file)) }
    ensures durable { IfOk result (λ m. Only (F.seen m.file) (F.may_leave m.file)) }
    ensures was_empty { IfOk result (λ m. IsTrue (F.faithful m.file) → F.seen file ≡ []) }
    ensures refused { IfErr result (λ e. IsTrue (F.faithful e.1)
        → ((e.0 ≡ NotEmpty) × (0 < length (F.seen file))) ⊎ (e.0 ≡ NoMemory) ⊎ FileFailed e.0 (F.faults file) (F.faults e.1)) }
    ensures any_moment_ok { IfOk result (λ m. IsTrue (F.faithful m.file)
        → Leaves F.moment F.left_since F.may_leave (Creates header identifiers.now) file m.file) }
    ensures any_moment_err { IfErr result (λ e. IsTrue (F.faithful e.1)
        → Leaves F.moment F.left_since F.may_leave (Creates header identifiers.now) file e.1) }
{
    let mut file = file;
    let extents = (header.blocks + (EXTENT_BLOCKS - 1)) / EXTENT_BLOCKS;
    let entries = match vec![in alloc; 0u8; extents as usize] {
        Ok(entries) => entries,
        Err(_) => return Err((MetadataFault::NoMemory, file)),
    };
    match write_all(&mut file, header, identifiers) {
        Ok(()) => Ok(Metadata {
            file,
            header,
            identifiers: *identifiers,
            selected: 0,
            entries,
            is_broken: false,
        }),
        Err(fault) => Err((fault, file)),
    }
}

/// Writes all of it, if the file is empty.
fn write_all<F: StableFile>(
    file: &mut F,
    header: Header,
    identifiers: &Identifiers,
) -> Result<(), MetadataFault>
    requires { IsTrue (are_blocks header.blocks) }
    ensures created { OnOk result (IsTrue (F.faithful file.new) → IsCreated header identifiers.now (F.seen file.new)) }
    ensures selected { OnOk result (IsTrue (F.faithful file.new) → selected_in (F.seen file.new) ≡ 0) }
    ensures durable { OnOk result (Only (F.seen file.new) (F.may_leave file.new)) }
    ensures was_empty { OnOk result (IsTrue (F.faithful file.new) → F.seen file.old ≡ []) }
    ensures refused { IfErr result (λ e. IsTrue (F.faithful file.new)
        → ((e ≡ NotEmpty) × (0 < length (F.seen file.old))) ⊎ FileFailed e (F.faults file.old) (F.faults file.new)) }
    ensures any_moment { IsTrue (F.faithful file.new) → Leaves F.moment F.left_since F.may_leave (Creates header identifiers.now) file.old file.new }
{
    let mut top = [0u8; HEADER_BYTES];
    seal(&header_words(&header), &mut top);
    let mut slot = [0u8; SLOT_BYTES];
    seal(&slot_words(identifiers), &mut slot);
    file.sync()?;
    if file.len()? != 0 {
        return Err(MetadataFault::NotEmpty);
    }
    write_parts(file, MARKS_AT + header.blocks, &top, &slot)?;
    Ok(())
}

/// Writes a slot and a header into an empty file that is all on the disk, the first word of the header last.
fn write_parts<F: StableFile>(
    file: &mut F,
    len: u64,
    top: &[u8],
    slot: &[u8],
) -> Result<(), FileFault>
    requires header { length top.now ≡ HEADER_BYTES }
    requires begins { 0 < slice_index top.now 0 }
    requires slot { length slot.now ≡ SLOT_BYTES }
    requires room { MARKS_AT ≤ len }

    ensures laid { OnOk result (F.seen file.old ≡ [] → IsLaidOut len top.now slot.now (F.seen file.new)) }
    ensures durable { OnOk result (Only (F.seen file.new) (F.may_leave file.new)) }
    ensures any_moment { Only [] (F.may_leave file.old) → F.seen file.old ≡ []
        → Leaves F.moment F.left_since F.may_leave (MagicLast len top.now slot.now) file.old file.new }
    ensures still_faithful { F.faithful file.new ≡ F.faithful file.old }
    ensures counted { OnErr result (F.faults file.old < F.faults file.new) }
{
    file.set_len(len)?;
    // All the bytes have to be there first: behind the end, a write that is cut short may leave anything.
    file.sync()?;
    file.write_at(FIRST_SLOT_AT, slot)?;
    file.write_at(WORD_BYTES as u64, &top[WORD_BYTES..])?;
    file.sync()?;
    file.write_at(0, &top[..WORD_BYTES])?;
    file.sync()
}
