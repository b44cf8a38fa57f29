//! The files that a disk is saved to.
ghost use Rattle.std.specs.Prelude.{◌≡◌};

use crate::fault::RunFault;
use crate::locked_image::LockedImage;
use blocks::{BLOCK_BYTES, Block, MemStore, Store};
use std::fs::{File, Metadata, OpenFile, OpenOptions};
use std::io::{BufWriter, ErrorKind, Write};
use std::os::unix::fs::{MetadataExt, fchown};
use std::rt::Files;
use std::{fs, io};

/// Where a disk is saved, if it has an image: first in a new file beside the image, which then takes the image's place.
#[derive(Drop)]
pub(crate) struct SavedImage<'a> {
    image: Option<LockedImage<'a>>,
}

impl<'a> SavedImage<'a> {
    /// Returns the place of an image, if there is one.
    pub(crate) fn of(image: Option<LockedImage<'a>>) -> SavedImage<'a> {
        SavedImage { image }
    }

    /// Returns whether the disk has an image.
    pub(crate) fn has_image(&self) -> bool {
        self.image.is_some()
    }

    /// Returns the path of the file beside the image, if there is an image.
    pub(crate) fn into_beside(self) -> Option<String> {
        Some(self.image?.beside)
    }

    /// Returns the folder that has the image's file, if there is an image.
    pub(crate) fn folder(&self) -> Option<&str> {
        let image = self.image.as_ref()?;
        Some(image.real.parent()?.as_str())
    }

    /// Writes the disk to a new file beside its image, down to the medium, with the image's owner, group and permissions.
    /// If that fails, removes the new file. What is there already is not written to and not removed.
    pub(crate) fn write<H: Files<File = File> + AllocGlobal>(
        &self,
        rt: &H,
        disk: &mut MemStore,
    ) -> Result<(), RunFault<'a>>
        ensures { disk.new ≡ disk.old }
    {
        let Some(image) = &self.image else {
            return Ok(());
        };
        // A file that has to be new follows no link.
        let file = OpenOptions::new()
            .write(true)
            .create_new(true)
            .open(rt, image.beside.as_str());
        let written = match file {
            Ok(mut file) => write_disk(rt, image.real.as_str(), &mut file, disk),
            Err(error) if error.kind() == ErrorKind::AlreadyExists => {
                return Err(RunFault::Occupied(image.named, image.beside.clone()?));
            }
            Err(error) => return Err(RunFault::Unsaved(image.named, error)),
        };
        match written {
            Ok(()) => Ok(()),
            Err(error) => {
                self.clear(rt);
                Err(RunFault::Unsaved(image.named, error))
            }
        }
    }

    /// Moves the written file to the place of the image.
    pub(crate) fn replace<H: Files>(&self, rt: &H) -> Result<(), RunFault<'a>> {
        let Some(image) = &self.image else {
            return Ok(());
        };
        match fs::rename(rt, image.beside.as_str(), image.real.as_str()) {
            Ok(()) => Ok(()),
            Err(error) => Err(RunFault::Unsaved(image.named, error)),
        }
    }

    /// Removes the file beside the image, which this run has written.
    pub(crate) fn clear<H: Files>(&self, rt: &H) {
        if let Some(image) = &self.image {
            let _ = fs::remove_file(rt, image.beside.as_str());
        }
    }

    /// Puts the folder of the image on stable storage, with the names in it.
    pub(crate) fn sync_folder<H: Files>(&self, rt: &H) -> Result<(), RunFault<'a>> {
        let (Some(image), Some(folder)) = (&self.image, self.folder()) else {
            return Ok(());
        };
        match sync(rt, folder) {
            Ok(()) => Ok(()),
            Err(error) => Err(RunFault::Unsynced(image.named, error)),
        }
    }
}

fn sync<H: Files>(rt: &H, folder: &str) -> io::Result<()> {
    fs::open(rt, folder)?.sync_all()
}

fn write_disk<H: Files<File = File> + AllocGlobal>(
    rt: &H,
    image: &str,
    file: &mut File,
    disk: &mut MemStore,
) -> io::Result<()>
    ensures { disk.new ≡ disk.old }
{
    give_rights(file, &fs::metadata(rt, image)?)?;
    let mut writer = BufWriter::new(rt.alloc(), &mut *file)?;
    let mut block = [0u8; BLOCK_BYTES];
    for number in 0..disk.blocks() {
        if disk.read(Block(u64::from(number)), &mut block).is_err() {
            return Err(io::Error::from(ErrorKind::Other));
        }
        writer.write_all(&block)?;
    }
    writer.flush()?;
    drop(writer);
    file.sync_all()
}

// Gives the file the owner, the group and the permissions of the image, the permissions last: a change of the owner takes
// some of them away.
fn give_rights(file: &File, image: &Metadata) -> io::Result<()> {
    give_owner(file, image)?;
    file.set_permissions(image.permissions())
}

// Gives the file the owner and the group of the image. A run that may not give the file away gives it the group alone, and
// keeps both if it may not do that either: its result is not to be lost for that.
fn give_owner(file: &File, image: &Metadata) -> io::Result<()> {
    let made = file.metadata()?;
    if (made.uid(), made.gid()) == (image.uid(), image.gid()) {
        return Ok(());
    }
    if give(file, Some(image.uid()), image.gid())? {
        return Ok(());
    }
    give(file, None, image.gid())?;
    Ok(())
}

// Gives the file this owner, if there is one, and this group. Returns whether the run may do that.
fn give(file: &File, owner: Option<u32>, group: u32) -> io::Result<bool> {
    match fchown(file, owner, Some(group)) {
        Ok(()) => Ok(true),
        Err(error) if error.kind() == ErrorKind::PermissionDenied => Ok(false),
        Err(error) => Err(error),
    }
}
