//! The metadata files of a server's images: opened and locked, before anything is served.
use crate::beginning::ImagesMetadata;
use crate::fault::ServeFault;
use bitmap::Bitmap;
use blocks::Refusal;
use image_metadata::{
    CountedFile, Found, FoundFile, OpeningBytes, WriteCounts, close_local, close_peer, find,
    image_state, open_locked,
};
use image_store::{ImageLock, PerDisk};
use program_values::{MetadataFiles, ServeOptions};
use std::fs::File;
use std::os::unix::fs::FileTypeExt;
use std::rt::Files;

/// What was found of both images' metadata, and the files.
#[derive(Drop)]
pub struct FoundFiles<M: OpeningBytes, N: OpeningBytes> {
    pub found: PerDisk<Found>,
    pub local: FoundFile<M>,
    pub peer: FoundFile<N>,
}

/// Opens and locks the metadata files of both images, the local one's first, and reads them for a device of `blocks` blocks. A file that
/// is missing is made, with no byte. Their writes are counted by `counts`. `None` if the options ask for no metadata; then there must be no
/// file beside an image.
pub fn find_files<'a, M: OpeningBytes, N: OpeningBytes, H: Files<File = File> + AllocGlobal>(
    rt: &H,
    options: &ServeOptions<'a>,
    locks: &PerDisk<ImageLock>,
    blocks: u32,
    counts: &PerDisk<WriteCounts>,
) -> Result<Option<FoundFiles<M, N>>, ServeFault<'a>> {
    let MetadataFiles::Kept {
        local: local_path,
        peer: peer_path,
    } = options.metadata
    else {
        return Ok(None);
    };
    let ours = Some(shared(&counts.local)?);
    let theirs = Some(shared(&counts.peer)?);
    let local = find_one::<M, H>(rt, options.local, local_path, &locks.local, blocks, ours);
    let (local_found, local) = local?;
    match find_one::<N, H>(rt, options.peer, peer_path, &locks.peer, blocks, theirs) {
        Ok((peer_found, peer)) => Ok(Some(FoundFiles {
            found: PerDisk {
                local: local_found,
                peer: peer_found,
            },
            local,
            peer,
        })),
        Err(fault) => Err(fault),
    }
}

// Returns the same counts for a file.
fn shared<'a>(counts: &WriteCounts) -> Result<WriteCounts, ServeFault<'a>> {
    match counts.share() {
        Ok(counts) => Ok(counts),
        Err(_) => Err(ServeFault::Refused(Refusal::NoMemory)),
    }
}

/// Opens and reads the metadata file of an image, which is beside it if no path is given. A file that is missing is made.
/// Its writes are counted by `counts`, if they are given.
pub fn find_one<'a, X: OpeningBytes, H: Files<File = File> + AllocGlobal>(
    rt: &H,
    image: &'a str,
    path: Option<&'a str>,
    lock: &ImageLock,
    blocks: u32,
    counts: Option<WriteCounts>,
) -> Result<(Found, FoundFile<X>), ServeFault<'a>> {
    let file = match path {
        Some(path) => open_at(rt, image, path)?,
        None => open_beside(rt, image, lock)?,
    };
    match image_state(lock.file()) {
        Ok(state) => Ok(find(
            rt.alloc(),
            CountedFile::new(file, counts),
            u64::from(blocks),
            &state,
        )),
        Err(error) => Err(ServeFault::UnreadState(image, error)),
    }
}

// Opens the metadata file beside an image, which is a regular file.
fn open_beside<'a, H: Files<File = File> + AllocGlobal>(
    rt: &H,
    image: &'a str,
    lock: &ImageLock,
) -> Result<File, ServeFault<'a>> {
    check_beside(image, lock)?;
    match format!(in rt.alloc(); "{image}.metadata") {
        Ok(path) => open_at(rt, image, path.as_str()),
        Err(_) => Err(ServeFault::Refused(Refusal::NoMemory)),
    }
}

/// Checks that the metadata of an image may be beside it: the image is a regular file.
pub fn check_beside<'a>(image: &'a str, lock: &ImageLock) -> Result<(), ServeFault<'a>> {
    match lock.file().metadata() {
        Ok(found) if found.file_type().is_block_device() => {
            Err(ServeFault::UnnamedMetadata(image))
        }
        Ok(_) => Ok(()),
        Err(error) => Err(ServeFault::UnreadState(image, error)),
    }
}

// Opens a metadata file.
fn open_at<'a, H: Files<File = File>>(
    rt: &H,
    image: &'a str,
    path: &str,
) -> Result<File, ServeFault<'a>> {
    match open_locked(rt, path) {
        Ok(file) => Ok(file),
        Err(fault) => Err(ServeFault::Metadata(image, fault)),
    }
}

/// Has the metadata of both images say that their server ended cleanly, with these blocks marked, if the images `are_whole`: they are on
/// stable storage, and as they were served. Returns whether the metadata could be written, now and before.
pub fn close_metadata<M: OpeningBytes, N: OpeningBytes>(
    metadata: ImagesMetadata<M, N>,
    marks: &Bitmap,
    locks: &PerDisk<ImageLock>,
    are_whole: bool,
) -> bool {
    let (Some(mut local), Some(mut peer)) = (metadata.primary, metadata.secondary) else {
        return true;
    };
    if local.is_broken() || peer.is_broken() {
        return false;
    }
    if !are_whole {
        return true;
    }
    let (Ok(ours), Ok(theirs)) = (
        image_state(locks.local.file()),
        image_state(locks.peer.file()),
    ) else {
        return true;
    };
    // The peer's comes first: as long as the local one does not say so, the next start copies what was active.
    close_peer(&mut peer, theirs).is_ok() && close_local(&mut local, marks, ours).is_ok()
}
