//! The metadata files of a server's images as a dry run finds them: read, and none made.
use crate::fault::ServeFault;
use crate::image_files::{check_beside, find_one};
use blocks::Refusal;
use image_metadata::{AnyBytes, Found, FoundFile};
use image_store::{ImageLock, PerDisk};
use program_values::{MetadataFiles, ServeOptions};
use std::fs::File;
use std::io::ErrorKind;
use std::rt::Files;
use std::{fs, io};

/// What was found of an image's metadata, and the file if there is one.
pub type Seen = (Found, Option<FoundFile<AnyBytes>>);

/// Reads the metadata files of both images under their locks, the local one's first, for a device of `blocks` blocks. Makes none: one that
/// is missing is `Missing`, with no file. `None` if the options ask for no metadata. The faults are those of `find_files`.
pub fn see_files<'a, H: Files<File = File> + AllocGlobal>(
    rt: &H,
    options: &ServeOptions<'a>,
    locks: &PerDisk<ImageLock>,
    blocks: u32,
) -> Result<Option<(Seen, Seen)>, ServeFault<'a>> {
    let MetadataFiles::Kept {
        local: local_path,
        peer: peer_path,
    } = options.metadata
    else {
        return Ok(None);
    };
    let local = see_one(rt, options.local, local_path, &locks.local, blocks)?;
    let peer = see_one(rt, options.peer, peer_path, &locks.peer, blocks)?;
    Ok(Some((local, peer)))
}

// Reads the metadata file of an image, which is beside it if no path is given.
fn see_one<'a, H: Files<File = File> + AllocGlobal>(
    rt: &H,
    image: &'a str,
    path: Option<&'a str>,
    lock: &ImageLock,
    blocks: u32,
) -> Result<Seen, ServeFault<'a>> {
    if path.is_none() {
        check_beside(image, lock)?;
    }
    if !is_there(rt, image, path)? {
        return Ok((Found::Missing, None));
    }
    let (found, file) = find_one::<AnyBytes, H>(rt, image, path, lock, blocks, None)?;
    Ok((found, Some(file)))
}

// Returns whether there is a metadata file. One that cannot be looked at counts as one: opening it tells why.
fn is_there<'a, H: Files<File = File> + AllocGlobal>(
    rt: &H,
    image: &'a str,
    path: Option<&'a str>,
) -> Result<bool, ServeFault<'a>> {
    if let Some(path) = path {
        return Ok(is_file_at(fs::metadata(rt, path)));
    }
    match format!(in rt.alloc(); "{image}.metadata") {
        Ok(path) => Ok(is_file_at(fs::metadata(rt, path.as_str()))),
        Err(_) => Err(ServeFault::Refused(Refusal::NoMemory)),
    }
}

// Returns whether a look at a path met something.
fn is_file_at(look: io::Result<fs::Metadata>) -> bool {
    match look {
        Ok(_) => true,
        Err(error) => error.kind() != ErrorKind::NotFound,
    }
}
