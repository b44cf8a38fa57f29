//! Failures of a run.
ghost use Rattle.std.specs.Prelude.{◌≡◌};
ghost use Rattle.blocks.specs.declared.refusal.Refusal.{Refusal};
ghost use Rattle.blocks.specs.declared.refusal.Refusal.TheVariants.{NoMemory};
ghost use Rattle.program_values.specs.Statuses.{status_of};
ghost use Rattle.program_values.specs.declared.status.SessionStatus.TheVariants as status;
ghost use Rattle.session_run.specs.declared.fault.RunFault.TheVariants.{Refused};

use blocks::Refusal;
use image_store::OpenFault;
use program_values::SessionStatus;
use std::alloc::AllocError;
use std::{fmt, io};

/// Why a run failed, with the file that it is about.
#[derive(Drop)]
pub(crate) enum RunFault<'a> {
    /// The image could not be locked.
    LockRefused(&'a str, OpenFault),
    /// The image could not be read.
    Unread(&'a str, io::Error),
    /// The image is not as long as its device.
    WrongLength(&'a str, OpenFault),
    /// The sockets could not be connected.
    Unconnected(io::Error),
    /// A socket failed, and with it the link.
    Lost,
    /// The start, a write or the settlement was refused, or there was no memory (7).
    Refused(Refusal),
    /// The disks differ on this many blocks without a mark.
    Unmarked(u32),
    /// The image could not be saved, since something has the name of the file that is first written beside it. Both images
    /// are as they were.
    Occupied(&'a str, String),
    /// The image could not be saved; the file is as it was.
    Unsaved(&'a str, io::Error),
    /// The peer's image could not be replaced, though the local one was; its new contents are in this file beside it.
    Unreplaced(&'a str, String, io::Error),
    /// The image was replaced, and its folder could not be put on stable storage.
    Unsynced(&'a str, io::Error),
    /// The output could not be written.
    Unwritten(io::Error),
}

impl RunFault<'_> {
    /// Returns how the session ends with it.
    pub(crate) fn status(&self) -> SessionStatus
        ensures done { result ≡ status.Done → ⊥ }
        ensures refused { (refusal : Refusal) → self.now ≡ Refused refusal → result ≡ status_of refusal }
    {
        match self {
            RunFault::Refused(refusal) => SessionStatus::of(*refusal),
            _ => SessionStatus::Failed,
        }
    }
}

impl fmt::Display for RunFault<'_> {
    fn fmt<W: fmt::Write>(&self, f: &mut fmt::Formatter<W>) -> fmt::Result {
        match self {
            RunFault::LockRefused(file, fault) => write!(f, "{file}: {fault}"),
            RunFault::Unread(file, error) => write!(f, "{file} could not be read: {error}"),
            RunFault::WrongLength(file, fault) => write!(f, "{file}: {fault}"),
            RunFault::Unconnected(error) => write!(
                f,
                "the sockets could not be connected: {error}"
            ),
            RunFault::Lost => write!(f, "a socket failed, and the link was lost"),
            RunFault::Refused(refusal) => write!(f, "refused {}", refusal.number()),
            RunFault::Unmarked(count) => {
                write!(
                    f,
                    "{count} blocks differ without a mark; no image was changed"
                )
            }
            RunFault::Occupied(file, beside) => {
                write!(
                    f,
                    "{file} cannot be saved, as {beside} is in the way: move it away; it may be what an earlier run \
                     could not put in the image's place"
                )
            }
            RunFault::Unsaved(file, error) => write!(f, "{file} could not be saved: {error}"),
            RunFault::Unreplaced(file, beside, error) => {
                write!(
                    f,
                    "{file} could not be replaced: {error}; its new contents are in {beside}"
                )
            }
            RunFault::Unsynced(file, error) => {
                write!(
                    f,
                    "{file} was replaced, and may not be on stable storage yet: {error}"
                )
            }
            RunFault::Unwritten(error) => write!(f, "the output could not be written: {error}"),
        }
    }
}

impl<'a> From<Refusal> for RunFault<'a> {
    fn from(refusal: Refusal) -> RunFault<'a>
        ensures { result ≡ Refused refusal }
    {
        RunFault::Refused(refusal)
    }
}

impl<'a> From<AllocError> for RunFault<'a> {
    fn from(_: AllocError) -> RunFault<'a>
        ensures { result ≡ Refused NoMemory }
    {
        RunFault::Refused(Refusal::NoMemory)
    }
}
