//! Opening a metadata file that is there.
ghost use Rattle.std.specs.Prelude.{◌≡◌, ◌⊎◌, ◌<◌, ◌≤◌, ℕ, List, false, Ok, Err, length, IsTrue, IfOk, IfErr, OnOk, OnErr};
ghost use Rattle.blocks.specs.declared.block.TheConstants.{MAX_DEVICE_BLOCKS};
ghost use Rattle.metadata.specs.declared.fault.MetadataFault.TheVariants.{NoMemory};
ghost use Rattle.metadata.specs.Calls.{IsQuiet, Leaves, Only};
ghost use Rattle.metadata.specs.Judged.{slot_judged};
ghost use Rattle.metadata.specs.Says.{entered_in, selected_in, slot_bytes, extents_of, opened_header, opened_identifiers};
ghost use Rattle.metadata.specs.Steps.{Unchanged};
ghost use Rattle.metadata.specs.State.{is_entered, FileFailed, Refuses};

use crate::judge::{judge_header, judge_slot};
use crate::layout::{EXTENTS_AT, HEADER_BYTES, SELECTOR_AT, SLOT_BYTES};
use crate::slots::slot_at;
use crate::{FileFault, Header, Identifiers, Metadata, MetadataFault, StableFile};
use blocks::EXTENT_BLOCKS;
use std::alloc::Global;

/// What a file says.
#[derive(Drop)]
struct Contents {
    header: Header,
    identifiers: Identifiers,
    selected: u8,
    entries: Vec<u8>,
}

/// Opens a metadata file. `asked` is how many blocks the device has, if the caller knows it. It syncs the file, reads the header, the
/// identifiers and the entries, and writes nothing.
///
/// Refused with `NotMetadata` if the file is shorter than a header or does not begin with the magic; else `OtherVersion`; else
/// `HeaderDamaged` if the sum is wrong or a number has no sense; else `OtherLength` if the header wants another one; else
/// `OtherBlocks` if `asked` is another number; else `IdentifiersDamaged` if the sum of the slot that counts is wrong. `NoMemory` if
/// there is none for the entries, `File` if a call of the file fails. A refused file is handed back.
pub fn open<F: StableFile>(
    alloc: Global,
    file: F,
    asked: Option<u64>,
) -> Result<Metadata<F>, (MetadataFault, F)>
    ensures whole { IfOk result (λ m. m.is_broken ≡ false) }
    ensures header { IfOk result (λ m. IsTrue (F.faithful m.file) → opened_header asked (F.seen file) ≡ Ok m.header) }
    ensures identifiers { IfOk result (λ m. IsTrue (F.faithful m.file) → opened_identifiers (F.seen file) ≡ Ok m.identifiers) }
    ensures extents { IfOk result (λ m. length m.entries ≡ extents_of m.header.blocks) }
    ensures entries { IfOk result (λ m. IsTrue (F.faithful m.file) → (x : ℕ) → x < length m.entries → is_entered m.entries x ≡ entered_in (F.seen file) x) }
    ensures durable { IfOk result (λ m. Only (F.seen m.file) (F.may_leave m.file)) }
    ensures refused { IfErr result (λ e. IsTrue (F.faithful e.1) → Refuses asked (F.seen file) e.0 (F.faults file) (F.faults e.1)) }

    // It writes nothing.
    ensures same_ok { IfOk result (λ m. F.seen m.file ≡ F.seen file) }
    ensures same_err { IfErr result (λ e. F.seen e.1 ≡ F.seen file) }
    ensures any_moment_ok { IfOk result (λ m. Leaves F.moment F.left_since F.may_leave Unchanged file m.file) }
    ensures any_moment_err { IfErr result (λ e. Leaves F.moment F.left_since F.may_leave Unchanged file e.1) }
{
    let mut file = file;
    match read_contents(alloc, &mut file, asked) {
        Ok(
            Contents {
                header,
                identifiers,
                selected,
                entries,
            },
        ) => Ok(Metadata {
            file,
            header,
            identifiers,
            selected,
            entries,
            is_broken: false,
        }),
        Err(fault) => Err((fault, file)),
    }
}

/// Syncs the file and reads it.
fn read_contents<F: StableFile>(
    alloc: Global,
    file: &mut F,
    asked: Option<u64>,
) -> Result<Contents, MetadataFault>
    ensures header { IfOk result (λ k. IsTrue (F.faithful file.new) → opened_header asked (F.seen file.old) ≡ Ok k.header) }
    ensures identifiers { IfOk result (λ k. IsTrue (F.faithful file.new) → opened_identifiers (F.seen file.old) ≡ Ok k.identifiers) }
    ensures selected { IfOk result (λ k. IsTrue (F.faithful file.new) → selected_in (F.seen file.old) ≡ k.selected) }
    ensures few { IfOk result (λ k. k.selected ≤ 1) }
    ensures few_blocks { IfOk result (λ k. k.header.blocks ≤ MAX_DEVICE_BLOCKS) }
    ensures extents { IfOk result (λ k. length k.entries.items ≡ extents_of k.header.blocks) }
    ensures entries { IfOk result (λ k. IsTrue (F.faithful file.new) → (x : ℕ) → x < length k.entries.items → is_entered k.entries.items x ≡ entered_in (F.seen file.old) x) }
    ensures durable { OnOk result (Only (F.seen file.new) (F.may_leave file.new)) }
    ensures refused { IfErr result (λ e. IsTrue (F.faithful file.new) → Refuses asked (F.seen file.old) e (F.faults file.old) (F.faults file.new)) }
    ensures quiet { IsQuiet F.moment F.left_since F.may_leave F.seen F.faithful file.old file.new }
{
    file.sync()?;
    let header = read_header(file, asked)?;
    let selected = read_selector(file)?;
    let identifiers = read_slot(file, selected)?;
    let entries = read_entries(alloc, file, header.blocks)?;
    Ok(Contents {
        header,
        identifiers,
        selected,
        entries,
    })
}

/// Reads the header.
fn read_header<F: StableFile>(file: &mut F, asked: Option<u64>) -> Result<Header, MetadataFault>
    ensures header { IfOk result (λ h. IsTrue (F.faithful file.new) → opened_header asked (F.seen file.old) ≡ Ok h) }
    ensures few_blocks { IfOk result (λ h. h.blocks ≤ MAX_DEVICE_BLOCKS) }
    ensures refused { IfErr result (λ e. IsTrue (F.faithful file.new) → (opened_header asked (F.seen file.old) ≡ Err e) ⊎ FileFailed e (F.faults file.old) (F.faults file.new)) }
    ensures still { OnOk result (F.faults file.new ≡ F.faults file.old) }
    ensures quiet { IsQuiet F.moment F.left_since F.may_leave F.seen F.faithful file.old file.new }
{
    let len = file.len()?;
    if len < HEADER_BYTES as u64 {
        return Err(MetadataFault::NotMetadata);
    }
    let mut bytes = [0u8; HEADER_BYTES];
    file.read_at(0, &mut bytes)?;
    judge_header(asked, len, &bytes)
}

/// Reads which slot counts.
fn read_selector<F: StableFile>(file: &mut F) -> Result<u8, FileFault>
    ensures selected { IfOk result (λ n. IsTrue (F.faithful file.new) → selected_in (F.seen file.old) ≡ n) }
    ensures few { IfOk result (λ n. n ≤ 1) }
    ensures counted { OnErr result (F.faults file.old < F.faults file.new) }
    ensures still { OnOk result (F.faults file.new ≡ F.faults file.old) }
    ensures quiet { IsQuiet F.moment F.left_since F.may_leave F.seen F.faithful file.old file.new }
{
    let mut selector = [0u8; 1];
    file.read_at(SELECTOR_AT, &mut selector)?;
    Ok(if selector[0] == 0 { 0 } else { 1 })
}

/// Reads a slot.
fn read_slot<F: StableFile>(file: &mut F, slot: u8) -> Result<Identifiers, MetadataFault>
    ensures identifiers { IfOk result (λ v. IsTrue (F.faithful file.new) → slot_judged (slot_bytes slot (F.seen file.old)) ≡ Ok v) }
    ensures refused { IfErr result (λ e. IsTrue (F.faithful file.new) → (slot_judged (slot_bytes slot (F.seen file.old)) ≡ Err e) ⊎ FileFailed e (F.faults file.old) (F.faults file.new)) }
    ensures still { OnOk result (F.faults file.new ≡ F.faults file.old) }
    ensures quiet { IsQuiet F.moment F.left_since F.may_leave F.seen F.faithful file.old file.new }
{
    let mut bytes = [0u8; SLOT_BYTES];
    file.read_at(slot_at(slot), &mut bytes)?;
    judge_slot(&bytes)
}

/// Reads the entries of the extents of a device of this many blocks.
fn read_entries<F: StableFile>(
    alloc: Global,
    file: &mut F,
    blocks: u64,
) -> Result<Vec<u8>, MetadataFault>
    requires { blocks ≤ MAX_DEVICE_BLOCKS }
    ensures extents { IfOk result (λ v. length v.items ≡ extents_of blocks) }
    ensures entries { IfOk result (λ v. IsTrue (F.faithful file.new) → (x : ℕ) → x < length v.items → is_entered v.items x ≡ entered_in (F.seen file.old) x) }
    ensures refused { IfErr result (λ e. (e ≡ NoMemory) ⊎ FileFailed e (F.faults file.old) (F.faults file.new)) }
    ensures quiet { IsQuiet F.moment F.left_since F.may_leave F.seen F.faithful file.old file.new }
{
    let extents = (blocks + (EXTENT_BLOCKS - 1)) / EXTENT_BLOCKS;
    let mut entries = vec![in alloc; 0u8; extents as usize]?;
    file.read_at(EXTENTS_AT, &mut entries)?;
    Ok(entries)
}
