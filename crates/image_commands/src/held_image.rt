//! An image under its lock, with its metadata file.
use crate::command_fault::CommandFault;
use blocks::{BLOCK_BYTES, MAX_DEVICE_BLOCKS};
use image_metadata::{
    AnyBytes, CountedFile, Found, FoundFile, ImageFile, Metadata, Saved, find, image_state,
    open_locked,
};
use image_store::ImageLock;
use program_values::ImageOptions;
use std::fs::{self, File};
use std::os::unix::fs::FileTypeExt;
use std::rt::Files;

/// An image that no server uses meanwhile.
#[derive(Drop)]
pub(crate) struct HeldImage {
    pub(crate) lock: ImageLock,
    /// The device's blocks.
    pub(crate) blocks: u32,
}

/// Locks an image.
pub(crate) fn hold<'a, H: Files<File = File>>(
    rt: &H,
    image: &'a str,
) -> Result<HeldImage, CommandFault<'a>> {
    let lock = match ImageLock::take(rt, image) {
        Ok(lock) => lock,
        Err(fault) => return Err(CommandFault::Unopened(image, fault)),
    };
    match lock.image_bytes() {
        Ok(bytes) => {
            let blocks = bytes / BLOCK_BYTES as u64;
            if blocks == 0
                || blocks > u64::from(MAX_DEVICE_BLOCKS)
                || bytes % BLOCK_BYTES as u64 != 0
            {
                return Err(CommandFault::NoDevice(image));
            }
            Ok(HeldImage {
                lock,
                blocks: blocks as u32,
            })
        }
        Err(error) => Err(CommandFault::Unread(image, error)),
    }
}

/// Opens the metadata file of a held image; makes it, empty, if it is missing and `may_create`.
pub(crate) fn metadata_file<'a, H: Files<File = File> + AllocGlobal>(
    rt: &H,
    options: &ImageOptions<'a>,
    held: &HeldImage,
    may_create: bool,
) -> Result<File, CommandFault<'a>> {
    if let Some(path) = options.metadata {
        return open_at(rt, options.image, path, may_create);
    }
    match held.lock.file().metadata() {
        Ok(found) if found.file_type().is_block_device() => {
            return Err(CommandFault::UnnamedMetadata(options.image));
        }
        Ok(_) => {}
        Err(error) => return Err(CommandFault::Unread(options.image, error)),
    }
    match format!(in rt.alloc(); "{}.metadata", options.image) {
        Ok(path) => open_at(rt, options.image, path.as_str(), may_create),
        Err(_) => Err(CommandFault::NoMemory),
    }
}

// Opens the metadata file at a path.
fn open_at<'a, H: Files<File = File>>(
    rt: &H,
    image: &'a str,
    path: &str,
    may_create: bool,
) -> Result<File, CommandFault<'a>> {
    if !may_create && fs::metadata(rt, path).is_err() {
        return Err(CommandFault::Missing(image));
    }
    match open_locked(rt, path) {
        Ok(file) => Ok(file),
        Err(fault) => Err(CommandFault::Metadata(image, fault)),
    }
}

/// Reads the metadata of a held image. Returns what it says, and the metadata itself.
pub(crate) fn saved_metadata<'a, H: Files<File = File> + AllocGlobal>(
    rt: &H,
    options: &ImageOptions<'a>,
    held: &HeldImage,
) -> Result<(Saved, Metadata<ImageFile<AnyBytes>>), CommandFault<'a>> {
    let image = options.image;
    let file = metadata_file(rt, options, held, false)?;
    let state = match image_state(held.lock.file()) {
        Ok(state) => state,
        Err(error) => return Err(CommandFault::Unread(image, error)),
    };
    match find::<AnyBytes>(
        rt.alloc(),
        CountedFile::new(file, None),
        u64::from(held.blocks),
        &state,
    ) {
        (Found::Says(saved), FoundFile::Whole(metadata)) => Ok((saved, metadata)),
        (Found::Unusable(fault), _) => Err(CommandFault::Unusable(image, fault)),
        _ => Err(CommandFault::Missing(image)),
    }
}
