//! The images of a server: their locks, their disks, and what became of them.
ghost use Rattle.std.specs.Prelude.{◌≡◌, ◌<◌, ◌≤◌, ◌↔◌, IfErr, IfOk, IfSome, IsOk};
ghost use Rattle.blocks.specs.declared.refusal.Refusal.TheVariants.{BadSetting};
ghost use Rattle.disk_pair.specs.Disks.{IsOpened};
ghost use Rattle.served_images.specs.Ends.{AreInRange};

use crate::fault::ServeFault;
use blocks::{BLOCK_BYTES, MAX_DEVICE_BLOCKS, Refusal};
use disk_pair::Disks;
use file_store::{AnyContents, FileStore, OpeningContents};
use image_store::{ImageLock, OpenFault, PerDisk, check_length};
use program_values::ServeOptions;
use recorded_file::{OpenedFile, SharedFile};
use std::fs::File;
use std::rt::Files;
use std::{fs, io};

/// Returns the images' paths.
pub fn images_of<'a>(options: &ServeOptions<'a>) -> PerDisk<&'a str> {
    PerDisk {
        local: options.local,
        peer: options.peer,
    }
}

/// Returns which images may have kept parts of a write that failed.
pub fn torn_images<X: OpeningContents>(disks: &Disks<FileStore<File, X>>) -> PerDisk<bool> {
    PerDisk {
        local: disks.local.is_torn(),
        peer: disks.peer.is_torn(),
    }
}

/// Checks that the options ask for no size, or for one that a device has. `BadSetting` (15) if they do not.
pub fn check_size(options: &ServeOptions<'_>) -> Result<(), Refusal>
    ensures accepted { IsOk result ↔ AreInRange options.now }
    ensures refused { IfErr result (λ e. e ≡ BadSetting) }
{
    match options.blocks {
        Some(blocks) if blocks == 0 || blocks > MAX_DEVICE_BLOCKS => Err(Refusal::BadSetting),
        _ => Ok(()),
    }
}

/// Returns the device's size in blocks: as many as are asked for, else those of the local image.
pub fn blocks_of<'a>(options: &ServeOptions<'a>, local: &ImageLock) -> Result<u32, ServeFault<'a>>
    requires { AreInRange options.now }
    ensures range { IfOk result (λ blocks. (0 < blocks) × (blocks ≤ 2147483648)) }
    ensures asked { IfOk result (λ blocks. IfSome options.now.blocks (λ asked. blocks ≡ asked)) }
{
    if let Some(blocks) = options.blocks {
        return Ok(blocks);
    }
    let blocks = match local.image_bytes() {
        Ok(bytes) => bytes / BLOCK_BYTES as u64,
        Err(error) => return Err(ServeFault::Unopened(options.local, OpenFault::Unread(error))),
    };
    if blocks == 0 || blocks > u64::from(MAX_DEVICE_BLOCKS) {
        return Err(ServeFault::NoDevice(options.local));
    }
    Ok(blocks as u32)
}

/// Returns which images are no longer the files that were locked, or images of a device of `blocks` blocks.
pub fn changed_images<H: Files<File = File>>(
    rt: &H,
    locks: &PerDisk<ImageLock>,
    options: &ServeOptions<'_>,
    blocks: u32,
) -> PerDisk<bool> {
    let bytes = u64::from(blocks) * BLOCK_BYTES as u64;
    PerDisk {
        local: !locks.local.is_unchanged(rt, options.local, bytes),
        peer: !locks.peer.is_unchanged(rt, options.peer, bytes),
    }
}

/// Locks both images, the local one first.
pub fn lock_both<'a, H: Files<File = File>>(
    rt: &H,
    options: &ServeOptions<'a>,
) -> Result<PerDisk<ImageLock>, ServeFault<'a>> {
    match lock(rt, options.local) {
        Ok(local) => match lock(rt, options.peer) {
            Ok(peer) => Ok(PerDisk { local, peer }),
            Err(fault) => Err(fault),
        },
        Err(fault) => Err(fault),
    }
}

// Locks an image.
fn lock<'a, H: Files<File = File>>(rt: &H, file: &'a str) -> Result<ImageLock, ServeFault<'a>> {
    match ImageLock::take(rt, file) {
        Ok(lock) => Ok(lock),
        Err(fault) => Err(ServeFault::Unopened(file, fault)),
    }
}

/// Opens both images as disks of `blocks` blocks, the local one first. Returns the disks, and the handles that sync them.
pub fn open_both<'a, H: Files<File = File>, X: OpeningContents>(
    rt: &H,
    options: &ServeOptions<'a>,
    blocks: u32,
) -> Result<(Disks<FileStore<File, X>>, PerDisk<SharedFile<File>>), ServeFault<'a>>
    ensures disks { IfOk result (λ opened. IsOpened blocks (X.OpeningContents.held options.now.local.now) (X.OpeningContents.held options.now.peer.now) opened.0) }
    // Each handle syncs the image of its name.
    ensures syncs { IfOk result (λ opened. (opened.1.local.path ≡ options.now.local.now) × (opened.1.peer.path ≡ options.now.peer.now)) }
{
    let paths = PerDisk {
        local: options.local,
        peer: options.peer,
    };
    match disk_pair::open_both::<H, X>(rt, paths, blocks) {
        Ok(opened) => Ok(opened),
        Err(unopened) => Err(ServeFault::Unopened(unopened.path, unopened.fault)),
    }
}

/// Opens both images for reading alone, as disks of `blocks` blocks, the local one first. The faults are those of `open_both`.
pub fn read_both<'a, H: Files<File = File>>(
    rt: &H,
    options: &ServeOptions<'a>,
    locks: &PerDisk<ImageLock>,
    blocks: u32,
) -> Result<Disks<FileStore<File, AnyContents>>, ServeFault<'a>> {
    match read(rt, options.local, &locks.local, blocks) {
        Ok(local) => match read(rt, options.peer, &locks.peer, blocks) {
            Ok(peer) => Ok(Disks { local, peer }),
            Err(fault) => Err(fault),
        },
        Err(fault) => Err(fault),
    }
}

// Opens a locked image for reading, as a disk of `blocks` blocks.
fn read<'a, H: Files<File = File>>(
    rt: &H,
    file: &'a str,
    lock: &ImageLock,
    blocks: u32,
) -> Result<FileStore<File, AnyContents>, ServeFault<'a>> {
    let opened = match length_and_file(rt, file, lock) {
        Ok((bytes, opened)) => match check_length(bytes, blocks) {
            Ok(()) => opened,
            Err(fault) => return Err(ServeFault::Unopened(file, fault)),
        },
        Err(error) => return Err(ServeFault::Unopened(file, OpenFault::Unread(error))),
    };
    Ok(FileStore::over(OpenedFile::of(opened), blocks))
}

// Returns the length of a locked image, and the image opened for reading.
fn length_and_file<H: Files<File = File>>(
    rt: &H,
    file: &str,
    lock: &ImageLock,
) -> io::Result<(u64, File)> {
    let bytes = lock.image_bytes()?;
    let opened = fs::open(rt, file)?;
    Ok((bytes, opened))
}
