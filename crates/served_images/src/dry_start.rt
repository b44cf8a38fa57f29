//! A dry run: what a server would begin with, and what it would be refused for.
ghost use Rattle.std.specs.Prelude.{◌≡◌, Err, OnOk};
ghost use Rattle.blocks.specs.declared.refusal.Refusal.TheVariants.{BadSetting};
ghost use Rattle.program_values.specs.declared.status.SessionStatus.TheVariants as status;
ghost use Rattle.disk_pair.specs.DryRun.{HasTold};
ghost use Rattle.served_images.specs.Ends.{AreInRange};
ghost use Rattle.served_images.specs.declared.fault.ServeFault.TheVariants.{Refused};

use crate::beginning::{FreshNumbers, fresh_numbers, tell};
use crate::fault::{ServeFault, fault_of_comparison};
use crate::images::{blocks_of, check_size, lock_both, read_both};
use crate::seen_files::{Seen, see_files};
use crate::starts::{tell_differing, tell_first};
use blocks::Tuple;
use disk_pair::{Disks, ToCopy, first_marks, is_peer_known};
use file_store::{AnyContents, FileStore};
use image_metadata::{
    AnyBytes, FoundFile, MetadataFault, Start, UNKNOWN, judge, opening_identifiers,
};
use image_store::{ImageLock, PerDisk};
use kept_nodes::known_marks;
use program_values::{FirstStart, ServeOptions, SessionStatus};
use std::alloc::Global;
use std::fs::File;
use std::io::Write;
use std::random::RandomSource;
use std::rt::Files;

/// Says what a server with these options would begin with, in the words of its start, and prints how much it would copy:
/// `to copy: N blocks, M MiB`. Locks both images and their metadata files meanwhile, and reads them. Writes to no file, and makes none.
/// Listens at no address, and does not try whether a metadata file that is missing can be made. Returns how the start would end:
///
/// - `Done`: it would begin. Lines on `err` say which image is copied over which, and why.
/// - `Failed` or `Refused`, with the line on `err` that `serve` would write: an image or its metadata cannot be used, both are given the
///   wrong way round, they could not be compared, or there was no memory; `Failed` also if the output could not be written.
pub fn dry_run<H: Files<File = File> + AllocGlobal + RandomSource, W: Write, E: Write>(
    rt: &H,
    options: &ServeOptions<'_>,
    out: &mut W,
    err: &mut E,
) -> SessionStatus
    ensures done { result ≡ status.Done → HasTold (W.contents out.old) (W.contents out.new) }
    ensures refused { (AreInRange options.now → ⊥) → result ≡ status.Refused }
{
    match tell_start(rt, options, out, err) {
        Ok(()) => SessionStatus::Done,
        Err(fault) => {
            let _ = writeln!(err, "{fault}");
            fault.status()
        }
    }
}

// Says what a start would begin with if the options ask for no size, or for one that a device has.
fn tell_start<'a, H: Files<File = File> + AllocGlobal + RandomSource, W: Write, E: Write>(
    rt: &H,
    options: &ServeOptions<'a>,
    out: &mut W,
    err: &mut E,
) -> Result<(), ServeFault<'a>>
    ensures told { OnOk result (HasTold (W.contents out.old) (W.contents out.new)) }
    ensures refused { (AreInRange options.now → ⊥) → result ≡ Err (Refused BadSetting) }
{
    match check_size(options) {
        Ok(()) => tell_sized(rt, options, out, err),
        Err(refusal) => Err(ServeFault::Refused(refusal)),
    }
}

// Says what a start would begin with, under the locks of both images, and prints how much it would copy.
fn tell_sized<'a, H: Files<File = File> + AllocGlobal + RandomSource, W: Write, E: Write>(
    rt: &H,
    options: &ServeOptions<'a>,
    out: &mut W,
    err: &mut E,
) -> Result<(), ServeFault<'a>>
    requires { AreInRange options.now }
    ensures { OnOk result (HasTold (W.contents out.old) (W.contents out.new)) }
{
    let locks = lock_both(rt, options)?;
    let to_copy = to_copy(rt, options, &locks, err);
    drop(locks);
    match to_copy?.print(out) {
        Ok(()) => Ok(()),
        Err(error) => Err(ServeFault::Unwritten(error)),
    }
}

// Returns how much a start over both images would copy, and says why.
fn to_copy<'a, H: Files<File = File> + AllocGlobal + RandomSource, E: Write>(
    rt: &H,
    options: &ServeOptions<'a>,
    locks: &PerDisk<ImageLock>,
    err: &mut E,
) -> Result<ToCopy, ServeFault<'a>>
    requires { AreInRange options.now }
{
    let blocks = blocks_of(options, &locks.local)?;
    let disks = read_both(rt, options, locks, blocks)?;
    let numbers = fresh_numbers(rt)?;
    match see_files(rt, options, locks, blocks)? {
        None => unkept(options.first, blocks, disks, err),
        Some((local, peer)) => match judge(&local.0, &peer.0, numbers.boot) {
            Start::First => first(rt.alloc(), options.first, blocks, disks, err),
            Start::WrongWayRound => { Err(ServeFault::WrongWayRound(options.local, options.peer)) }
            start => known(
                rt.alloc(),
                options,
                blocks,
                start,
                local,
                peer,
                numbers,
                err,
            ),
        },
    }
}

// Returns how much a start without metadata would copy.
fn unkept<'a, E: Write>(
    how: FirstStart,
    blocks: u32,
    disks: Disks<FileStore<File, AnyContents>>,
    err: &mut E,
) -> Result<ToCopy, ServeFault<'a>> {
    let mut disks = disks;
    match is_peer_known(how, &mut disks, err) {
        Ok(true) => Ok(ToCopy { blocks: 0 }),
        Ok(false) => Ok(ToCopy { blocks }),
        Err(refusal) => Err(fault_of_comparison(refusal)),
    }
}

// Returns how much a start would copy that makes the metadata of both images.
fn first<'a, E: Write>(
    alloc: Global,
    how: FirstStart,
    blocks: u32,
    disks: Disks<FileStore<File, AnyContents>>,
    err: &mut E,
) -> Result<ToCopy, ServeFault<'a>> {
    let mut disks = disks;
    tell_first(err);
    let marked = match first_marks(alloc, blocks, how, &mut disks, err) {
        Ok(marks) => marks.count(),
        Err(refusal) => return Err(fault_of_comparison(refusal)),
    };
    tell_differing(how, marked, err);
    Ok(match how {
        FirstStart::Copy => ToCopy { blocks },
        FirstStart::Compare | FirstStart::AssumeEqual => ToCopy { blocks: marked },
    })
}

// Returns how much a start would copy that goes by the metadata of both images, as `start` says.
fn known<'a, E: Write>(
    alloc: Global,
    options: &ServeOptions<'a>,
    blocks: u32,
    start: Start,
    local: Seen,
    peer: Seen,
    numbers: FreshNumbers,
    err: &mut E,
) -> Result<ToCopy, ServeFault<'a>> {
    match marks_and_peer(alloc, start, local.1, peer.1, numbers) {
        Ok((marked, tuple)) => {
            tell(options, start, marked, tuple, err);
            let blocks = if tuple == UNKNOWN { blocks } else { marked };
            Ok(ToCopy { blocks })
        }
        Err(fault) => Err(ServeFault::UnmadeMetadata(options.local, fault)),
    }
}

// Returns how many blocks the local image's metadata has as marked or active, and the identifiers that the peer's disk would begin with.
fn marks_and_peer(
    alloc: Global,
    start: Start,
    local: Option<FoundFile<AnyBytes>>,
    peer: Option<FoundFile<AnyBytes>>,
    numbers: FreshNumbers,
) -> Result<(u32, Tuple), MetadataFault> {
    let mut local = local;
    let (marked, own) = match &mut local {
        Some(FoundFile::Whole(metadata)) => {
            let marks = known_marks(alloc, metadata)?;
            (marks.count(), metadata.identifiers().tuple)
        }
        Some(FoundFile::Empty(_)) | None => (0, Tuple::new(numbers.identifier, 0, 0, 0)),
    };
    let other = match &peer {
        Some(FoundFile::Whole(metadata)) => metadata.identifiers().tuple,
        Some(FoundFile::Empty(_)) | None => UNKNOWN,
    };
    let opening = opening_identifiers(start, own, other, marked > 0, numbers.lost_word);
    Ok((marked, opening.peer))
}
