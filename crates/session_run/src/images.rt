//! The images of both disks.
ghost use Rattle.std.specs.Prelude.{◌≡◌, ◌*◌, ◌<◌, ◌≤◌, vec_len, IfOk};

use crate::fault::RunFault;
use crate::locked_image::LockedImage;
use blocks::BLOCK_BYTES;
use image_store::check_length;
use std::fs::OpenFile;
use std::io::Read;
use std::rt::Files;
use std::{fs, io};

/// Returns the bytes of a disk of `blocks` blocks: its image's, or zeros if it has no image.
pub(crate) fn load<'a, H: Files + AllocGlobal>(
    rt: &H,
    image: &Option<LockedImage<'a>>,
    blocks: u32,
) -> Result<Vec<u8>, RunFault<'a>>
    requires { blocks ≤ 262144 }
    ensures { IfOk result (λ bytes. vec_len bytes ≡ blocks * 4096) }
{
    let wanted = blocks as usize * BLOCK_BYTES;
    let mut bytes = Vec::from_elem(rt.alloc(), 0u8, wanted)?;
    let Some(image) = image else {
        return Ok(bytes);
    };
    match fill(rt, image.real.as_str(), &mut bytes) {
        Ok(found) => match check_length(found, blocks) {
            Ok(()) => Ok(bytes),
            Err(fault) => Err(RunFault::WrongLength(image.named, fault)),
        },
        Err(error) => Err(RunFault::Unread(image.named, error)),
    }
}

// Reads a file that has exactly as many bytes as the buffer, and nothing of any other file. Returns the file's length.
fn fill<H: Files>(rt: &H, file: &str, bytes: &mut [u8]) -> io::Result<u64> {
    let mut image = fs::open(rt, file)?;
    let length = image.metadata()?.len();
    if length == bytes.len() as u64 {
        image.read_exact(bytes)?;
    }
    Ok(length)
}
