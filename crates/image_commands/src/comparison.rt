//! `verify`: comparing both images of a mirror.
use crate::command_fault::CommandFault;
use crate::held_image::{HeldImage, hold, metadata_file};
use bitmap::Bitmap;
use blocks::{BLOCK_BYTES, Block, MAX_BLOCKS};
use image_metadata::{AnyBytes, CountedFile, Found, FoundFile, find, image_state};
use kept_nodes::known_marks;
use program_values::{SessionStatus, VerifyOptions};
use std::fs::File;
use std::io;
use std::io::Write;
use std::os::unix::fs::FileExt;
use std::rt::Files;

/// How many blocks of two images differ.
#[derive(Clone, Copy, Debug, PartialEq, Eq)]
struct Difference {
    /// In all.
    differing: u64,
    /// Of these, those that no metadata has as marked or in an active extent.
    uncovered: u64,
}

/// Compares both images of a mirror, writes to neither, and says on `out` how many blocks differ, and how many of these the local
/// image's metadata does not cover, so that a server would not copy them. Both images are locked meanwhile. A line on `err` after each GiB
/// says how far it is. Returns `Done` if each difference is covered, or `Failed` with a line on `err` that says why.
pub fn verify<H: Files<File = File> + AllocGlobal, W: Write, E: Write>(
    rt: &H,
    options: &VerifyOptions<'_>,
    out: &mut W,
    err: &mut E,
) -> SessionStatus {
    match compare(rt, options, out, err) {
        Ok(()) => SessionStatus::Done,
        Err(fault) => {
            let _ = writeln!(err, "{fault}");
            SessionStatus::Failed
        }
    }
}

fn compare<'a, H: Files<File = File> + AllocGlobal, W: Write, E: Write>(
    rt: &H,
    options: &VerifyOptions<'a>,
    out: &mut W,
    err: &mut E,
) -> Result<(), CommandFault<'a>> {
    let local = hold(rt, options.local.image)?;
    let peer = hold(rt, options.peer)?;
    if local.blocks != peer.blocks {
        return Err(CommandFault::OtherLength);
    }
    let known = known_of(rt, options, &local)?;
    let found = match count(&local, &peer, known.as_ref(), err) {
        Ok(found) => found,
        Err(error) => return Err(CommandFault::Unread(options.local.image, error)),
    };
    let told = writeln!(
        out,
        "{} of {} blocks differ, {} of them not covered by metadata",
        found.differing, local.blocks, found.uncovered
    );
    if let Err(error) = told {
        return Err(CommandFault::Unwritten(error));
    }
    if found.uncovered > 0 {
        return Err(CommandFault::Uncovered(found.uncovered));
    }
    Ok(())
}

// Returns the blocks that the local image's metadata covers; `None` if there is no metadata.
fn known_of<'a, H: Files<File = File> + AllocGlobal>(
    rt: &H,
    options: &VerifyOptions<'a>,
    held: &HeldImage,
) -> Result<Option<Bitmap>, CommandFault<'a>> {
    let image = options.local.image;
    let file = match metadata_file(rt, &options.local, held, false) {
        Ok(file) => file,
        Err(CommandFault::Missing(_)) => return Ok(None),
        Err(fault) => return Err(fault),
    };
    let state = match image_state(held.lock.file()) {
        Ok(state) => state,
        Err(error) => return Err(CommandFault::Unread(image, error)),
    };
    match find::<AnyBytes>(
        rt.alloc(),
        CountedFile::new(file, None),
        u64::from(held.blocks),
        &state,
    ) {
        (_, FoundFile::Whole(metadata)) => {
            let mut metadata = metadata;
            match known_marks(rt.alloc(), &mut metadata) {
                Ok(marks) => Ok(Some(marks)),
                Err(fault) => Err(CommandFault::Unusable(image, fault)),
            }
        }
        (Found::Unusable(fault), _) => Err(CommandFault::Unusable(image, fault)),
        _ => Ok(None),
    }
}

// Counts the blocks that differ.
fn count<E: Write>(
    local: &HeldImage,
    peer: &HeldImage,
    known: Option<&Bitmap>,
    err: &mut E,
) -> io::Result<Difference> {
    let mut ours = [0u8; BLOCK_BYTES];
    let mut theirs = [0u8; BLOCK_BYTES];
    let mut found = Difference {
        differing: 0,
        uncovered: 0,
    };
    for number in 0..local.blocks {
        if number > 0 && number % MAX_BLOCKS == 0 {
            let _ = writeln!(
                err,
                "compared {} of {} GiB",
                number / MAX_BLOCKS,
                local.blocks.div_ceil(MAX_BLOCKS)
            );
        }
        let at = u64::from(number) * BLOCK_BYTES as u64;
        local.lock.file().read_exact_at(&mut ours, at)?;
        peer.lock.file().read_exact_at(&mut theirs, at)?;
        if ours != theirs {
            found.differing = found.differing.saturating_add(1);
            let is_covered = match known {
                Some(marks) => marks.is_marked(Block(u64::from(number))),
                None => false,
            };
            if !is_covered {
                found.uncovered = found.uncovered.saturating_add(1);
            }
        }
    }
    Ok(found)
}
