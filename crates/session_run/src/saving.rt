//! Saving both disks.
ghost use Rattle.std.specs.Prelude.{◌≡◌};

use crate::fault::RunFault;
use crate::locked_image::LockedImage;
use crate::parts::Disks;
use crate::report::RunReport;
use crate::saved_image::SavedImage;
use image_store::PerDisk;
use std::fs::File;
use std::rt::Files;

/// Saves the disks of `report` that have images, to `images`. Both are written beside their images before either takes its place,
/// so a failed write changes no image; what was written is then removed. If the peer's image cannot be replaced once the local one
/// is, its new contents stay beside it. Once both are replaced, their folders are put on stable storage. Frees the images at its
/// end.
pub(crate) fn save<'a, H: Files<File = File> + AllocGlobal>(
    rt: &H,
    images: PerDisk<Option<LockedImage<'a>>>,
    report: &mut RunReport,
) -> Result<(), RunFault<'a>>
    requires { report.old.unmarked ≡ 0 }
    ensures { report.new ≡ report.old }
{
    let places = PerDisk {
        local: SavedImage::of(images.local),
        peer: SavedImage::of(images.peer),
    };
    write_both(rt, &places, &mut report.disks)?;
    replace_both(rt, places)
}

// Writes both disks beside their images. If the peer's cannot be written, removes what was written of the local one.
fn write_both<'a, H: Files<File = File> + AllocGlobal>(
    rt: &H,
    places: &PerDisk<SavedImage<'a>>,
    disks: &mut Disks,
) -> Result<(), RunFault<'a>>
    ensures { (disks.new.local ≡ disks.old.local) × (disks.new.peer ≡ disks.old.peer) }
{
    places.local.write(rt, &mut disks.local)?;
    let written = places.peer.write(rt, &mut disks.peer);
    if written.is_err() {
        places.local.clear(rt);
    }
    written
}

// Moves both written files to the places of their images, and then puts the folders on stable storage. If the local one
// cannot be moved, removes both.
fn replace_both<'a, H: Files>(rt: &H, places: PerDisk<SavedImage<'a>>) -> Result<(), RunFault<'a>> {
    let replaced = places.local.replace(rt);
    if replaced.is_err() {
        places.local.clear(rt);
        places.peer.clear(rt);
        return replaced;
    }
    match places.peer.replace(rt) {
        Ok(()) => sync_folders(rt, &places),
        // The local image is replaced, so what its mirror had is not to be lost.
        Err(RunFault::Unsaved(image, error)) if places.local.has_image() => {
            let _ = sync_folders(rt, &places);
            match places.peer.into_beside() {
                Some(beside) => Err(RunFault::Unreplaced(image, beside, error)),
                None => Err(RunFault::Unsaved(image, error)),
            }
        }
        Err(fault) => {
            places.peer.clear(rt);
            Err(fault)
        }
    }
}

// Puts the folders of both images on stable storage, one folder once. Returns the first failure.
fn sync_folders<'a, H: Files>(
    rt: &H,
    places: &PerDisk<SavedImage<'a>>,
) -> Result<(), RunFault<'a>> {
    let local_synced = places.local.sync_folder(rt);
    if places.local.folder() == places.peer.folder() {
        return local_synced;
    }
    let peer_synced = places.peer.sync_folder(rt);
    if local_synced.is_err() {
        return local_synced;
    }
    peer_synced
}
