//! `create-md`: making the metadata of an image.
use crate::command_fault::CommandFault;
use crate::held_image::{hold, metadata_file};
use blocks::Tuple;
use image_metadata::{
    AnyBytes, BootId, CountedFile, Header, boot_id, create_anew, serving_identifiers,
};
use program_values::{ImageOptions, SessionStatus};
use std::fs::File;
use std::io::Write;
use std::random::RandomSource;
use std::rt::Files;

/// Makes metadata of an image, in a pair of its own: the next server over it copies all of the local image over the peer's. Metadata that is
/// there stays, unless `is_forced`. The image is locked meanwhile. Returns `Done`, or `Failed` with a line on `err` that says why.
pub fn create_md<H: Files<File = File> + AllocGlobal + RandomSource, W: Write, E: Write>(
    rt: &H,
    options: &ImageOptions<'_>,
    is_forced: bool,
    out: &mut W,
    err: &mut E,
) -> SessionStatus {
    match create(rt, options, is_forced, out) {
        Ok(()) => SessionStatus::Done,
        Err(fault) => {
            let _ = writeln!(err, "{fault}");
            SessionStatus::Failed
        }
    }
}

fn create<'a, H: Files<File = File> + AllocGlobal + RandomSource, W: Write>(
    rt: &H,
    options: &ImageOptions<'a>,
    is_forced: bool,
    out: &mut W,
) -> Result<(), CommandFault<'a>> {
    let image = options.image;
    let held = hold(rt, image)?;
    let file = metadata_file(rt, options, &held, true)?;
    match file.metadata() {
        Ok(found) if found.len() == 0 || is_forced => {}
        Ok(_) => return Err(CommandFault::Present(image)),
        Err(error) => return Err(CommandFault::Unread(image, error)),
    }
    let mut bytes = [0u8; 24];
    if let Err(error) = rt.fill_bytes(&mut bytes) {
        return Err(CommandFault::NoRandomBytes(error));
    }
    let header = Header {
        blocks: u64::from(held.blocks),
        pair: word(&bytes, 0) | 1,
        node: word(&bytes, 8) | 1,
    };
    let boot = boot_id(rt).unwrap_or(BootId { high: 0, low: 0 });
    let identifiers = serving_identifiers(Tuple::new(word(&bytes, 16) | 1, 0, 0, 0), true, boot, 0);
    let file = CountedFile::new(file, None);
    match create_anew::<AnyBytes>(rt.alloc(), file, header, &identifiers) {
        Ok(_) => match writeln!(out, "{image}: metadata of {} blocks", held.blocks) {
            Ok(()) => Ok(()),
            Err(error) => Err(CommandFault::Unwritten(error)),
        },
        Err(fault) => Err(CommandFault::Unusable(image, fault)),
    }
}

// Returns the word that begins at this byte.
fn word(bytes: &[u8; 24], first: usize) -> u64 {
    let mut word = 0u64;
    for byte in bytes.iter().skip(first).take(8) {
        word = word << 8 | u64::from(*byte);
    }
    word
}
