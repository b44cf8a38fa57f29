//! An image under its lock.
use crate::fault::RunFault;
use image_store::ImageLock;
use std::fs;
use std::fs::File;
use std::io::ErrorKind;
use std::path::PathBuf;
use std::rt::Files;

/// An image that no other run, and no server, uses meanwhile.
#[derive(Drop)]
pub(crate) struct LockedImage<'a> {
    /// The path that the caller gave, for messages.
    pub(crate) named: &'a str,
    /// The path of the file itself: it goes through no link.
    pub(crate) real: PathBuf,
    /// The path of the file beside it that the disk is first written to.
    pub(crate) beside: String,
    lock: ImageLock,
}

impl<'a> LockedImage<'a> {
    /// Locks the image at this path, if there is a path. Follows links. `ending` is that of the file beside the image. If
    /// something has that file's name, the image is refused here (`Occupied`): its run could not be saved.
    pub(crate) fn take<H: Files<File = File> + AllocGlobal>(
        rt: &H,
        named: Option<&'a str>,
        ending: &str,
    ) -> Result<Option<LockedImage<'a>>, RunFault<'a>> {
        let Some(named) = named else {
            return Ok(None);
        };
        let real = match fs::canonicalize(rt, named) {
            Ok(real) => real,
            Err(error) => return Err(RunFault::Unread(named, error)),
        };
        let beside = format!(in rt.alloc(); "{}.{ending}", real.display())?;
        let lock = match ImageLock::take(rt, real.as_str()) {
            Ok(lock) => lock,
            Err(fault) => return Err(RunFault::LockRefused(named, fault)),
        };
        // Only now: until the lock is free, another run may have a file there that it will put in the image's place.
        match fs::symlink_metadata(rt, beside.as_str()) {
            Ok(_) => Err(RunFault::Occupied(named, beside)),
            Err(error) if error.kind() == ErrorKind::NotFound => {
                Ok(Some(LockedImage {
                    named,
                    real,
                    beside,
                    lock,
                }))
            }
            Err(error) => Err(RunFault::Unsaved(named, error)),
        }
    }
}
