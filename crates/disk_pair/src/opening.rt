//! Opening both images as disks.
ghost use Rattle.std.specs.Prelude.{◌≡◌, IfOk};
ghost use Rattle.disk_pair.specs.Disks.{IsOpened};
ghost use Rattle.file_store.specs.Stores.{IsFresh, count_of};

use crate::Disks;
use file_store::{FileStore, OpeningContents};
use image_store::{OpenFault, PerDisk, open_image};
use recorded_file::SharedFile;
use std::fs::File;
use std::rt::Files;

/// An image that could not be opened.
#[derive(Drop)]
pub struct Unopened<'a> {
    /// Its path.
    pub path: &'a str,
    /// Why.
    pub fault: OpenFault,
}

/// An opened image, and the handle by which it is synced.
type Opened<X> = (FileStore<File, X>, SharedFile<File>);

/// Opens both images as disks of `blocks` blocks of 4,096 bytes, the local one first, as [`open_image`] does each. Returns the disks, and
/// the handles that sync them.
pub fn open_both<'a, H: Files<File = File>, X: OpeningContents>(
    rt: &H,
    paths: PerDisk<&'a str>,
    blocks: u32,
) -> Result<(Disks<FileStore<File, X>>, PerDisk<SharedFile<File>>), Unopened<'a>>
    ensures disks { IfOk result (λ opened. IsOpened blocks (X.OpeningContents.held paths.entry.local.now) (X.OpeningContents.held paths.entry.peer.now) opened.0) }
    // Each handle syncs the image of its name.
    ensures syncs { IfOk result (λ opened. (opened.1.local.path ≡ paths.entry.local.now) × (opened.1.peer.path ≡ paths.entry.peer.now)) }
{
    match open::<H, X>(rt, paths.local, blocks) {
        Ok((local, local_sync)) => match open::<H, X>(rt, paths.peer, blocks) {
            Ok((peer, peer_sync)) => {
                let syncs = PerDisk {
                    local: local_sync,
                    peer: peer_sync,
                };
                Ok((Disks { local, peer }, syncs))
            }
            Err(unopened) => Err(unopened),
        },
        Err(unopened) => Err(unopened),
    }
}

// Opens an image as a disk of `blocks` blocks.
fn open<'a, H: Files<File = File>, X: OpeningContents>(
    rt: &H,
    path: &'a str,
    blocks: u32,
) -> Result<Opened<X>, Unopened<'a>>
    ensures size { IfOk result (λ opened. count_of opened.0 ≡ blocks) }
    ensures fresh { IfOk result (λ opened. IsFresh path.now opened.0) }
    ensures same { IfOk result (λ opened. opened.1.path ≡ path.now) }
{
    match open_image::<H, X>(rt, path, blocks) {
        Ok(opened) => Ok(opened),
        Err(fault) => Err(Unopened { path, fault }),
    }
}
