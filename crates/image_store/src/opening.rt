//! Opening an image as a disk.
ghost use Rattle.std.specs.Prelude.{◌≡◌, false, IfOk, IfErr};
ghost use Rattle.file_store.specs.Stores.{count_of, torn_of, IsFresh};
ghost use Rattle.image_store.specs.Faults.{IsWrongFor};

use crate::OpenFault;
use crate::length::check_length;
use file_store::{FileStore, OpeningContents};
use recorded_file::{OpenedFile, SharedFile};
use std::fs::File;
use std::rt::Files;

/// Opens the image at `path` for reading and writing as a device of `blocks` blocks of 4,096 bytes. The handle makes durable what the
/// disk has written. Creates no file, and changes none.
///
/// `WrongLength` comes if the image does not have exactly `blocks * 4096` bytes; `Unread` if the system refuses to open,
/// measure or share it, or if a block device takes no write.
pub fn open_image<H: Files<File = File>, X: OpeningContents>(
    rt: &H,
    path: &str,
    blocks: u32,
) -> Result<(FileStore<File, X>, SharedFile<File>), OpenFault>
    ensures size { IfOk result (λ opened. count_of opened.0 ≡ blocks) }
    ensures fresh { IfOk result (λ opened. IsFresh path.now opened.0) }
    ensures whole { IfOk result (λ opened. torn_of opened.0 ≡ false) }
    // The handle syncs the same image.
    ensures same { IfOk result (λ opened. opened.1.path ≡ path.now) }
    ensures wrong_length { IfErr result (IsWrongFor blocks) }
{
    let (file, shared) = OpenedFile::open(rt, path).map_err(OpenFault::Unread)?;
    let found = file.bytes().map_err(OpenFault::Unread)?;
    check_length(found, blocks)?;
    file.check_writable().map_err(OpenFault::Unread)?;
    Ok((FileStore::over(file, blocks), shared))
}
