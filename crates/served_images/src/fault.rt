//! Failures of a server.
ghost use Rattle.std.specs.Prelude.{◌≡◌};
ghost use Rattle.blocks.specs.declared.refusal.Refusal.{Refusal};
ghost use Rattle.blocks.specs.declared.refusal.Refusal.TheVariants as refusal;
ghost use Rattle.program_values.specs.Statuses.{status_of};
ghost use Rattle.program_values.specs.declared.status.SessionStatus.TheVariants as status;
ghost use Rattle.served_images.specs.declared.fault.ServeFault.TheVariants.{Refused, Unbound};

use blocks::{BLOCK_BYTES, MAX_DEVICE_BLOCKS, Refusal};
use client_socket::ListenFault;
use image_metadata::{MetadataFault, MetadataFileFault};
use image_store::OpenFault;
use program_values::SessionStatus;
use std::{fmt, io};

/// Why a server could not start, or failed.
#[derive(Drop)]
pub enum ServeFault<'a> {
    /// The image could not be opened.
    Unopened(&'a str, OpenFault),
    /// No device has as many bytes as the image.
    NoDevice(&'a str),
    /// Nothing can listen at the address.
    Unbound(ListenFault),
    /// The session was refused, or there was no memory (7).
    Refused(Refusal),
    /// The system gave no thread.
    Unthreaded,
    /// The disks differ on this many blocks without a mark.
    Unmarked(u32),
    /// The disks could not be compared, since one failed a read.
    Unread,
    /// This many blocks are still marked, so the peer's image may not have them.
    Marked(u32),
    /// The image was replaced, or its length changed, while it was served.
    Changed(&'a str),
    /// A write to the image failed, and a part of it may still be there.
    Torn(&'a str),
    /// A sync of the image has failed, now or at a flush.
    Unsynced(&'a str, io::Error),
    /// The output could not be written.
    Unwritten(io::Error),
    /// The metadata file of the image could not be opened or locked.
    Metadata(&'a str, MetadataFileFault),
    /// The image is a block device, and no file for its metadata is named.
    UnnamedMetadata(&'a str),
    /// The metadata of the images could not be read or made.
    UnmadeMetadata(&'a str, MetadataFault),
    /// The images are given the wrong way round.
    WrongWayRound(&'a str, &'a str),
    /// The image's size and time of change could not be read.
    UnreadState(&'a str, io::Error),
    /// The system gave no random bytes.
    NoRandomBytes(io::Error),
    /// A metadata file could not be written while the images were served, or at the end.
    BrokenMetadata,
}

impl ServeFault<'_> {
    /// Returns how the session ends with it.
    pub fn status(&self) -> SessionStatus
        ensures done { result ≡ status.Done → ⊥ }
        ensures refused { (refusal : Refusal) → self.now ≡ Refused refusal → result ≡ status_of refusal }
    {
        match self {
            ServeFault::Refused(refusal) => SessionStatus::of(*refusal),
            ServeFault::WrongWayRound(..) => SessionStatus::Refused,
            _ => SessionStatus::Failed,
        }
    }
}

impl fmt::Display for ServeFault<'_> {
    fn fmt<W: fmt::Write>(&self, f: &mut fmt::Formatter<W>) -> fmt::Result {
        match self {
            ServeFault::Unopened(file, fault) => write!(f, "{file}: {fault}"),
            ServeFault::NoDevice(file) => write!(
                f,
                "{file}: an image has 1 to {MAX_DEVICE_BLOCKS} blocks of {BLOCK_BYTES} bytes"
            ),
            ServeFault::Unbound(fault) => write!(f, "{fault}"),
            ServeFault::Refused(refusal) => write!(f, "refused {}: {refusal}", refusal.number()),
            ServeFault::Unthreaded => f.write_str("a thread could not be started"),
            ServeFault::Unmarked(count) => write!(
                f,
                "{count} blocks differ without a mark: keep both images; they were not alike at a start with --first assume-equal, or this is a fault of this program"
            ),
            ServeFault::Unread => {
                f.write_str("the images could not be compared: a read of one of them failed")
            }
            ServeFault::Marked(count) => write!(
                f,
                "{count} blocks could not be copied: the peer's image is not like the local one"
            ),
            ServeFault::Changed(file) => write!(
                f,
                "{file} was replaced, or its length changed, while it was served"
            ),
            ServeFault::Torn(file) => write!(
                f,
                "{file} may have kept parts of a write that failed: it may differ from what was served"
            ),
            ServeFault::Unsynced(file, error) => write!(
                f,
                "{file} could not be put on stable storage, and may lack what was written to it: {error}"
            ),
            ServeFault::Unwritten(error) => write!(f, "the output could not be written: {error}"),
            ServeFault::Metadata(image, fault) => write!(f, "{image}: {fault}"),
            ServeFault::UnnamedMetadata(image) => write!(
                f,
                "{image} is a block device: name a file for its metadata by --local-metadata or --peer-metadata"
            ),
            ServeFault::UnmadeMetadata(image, fault) => {
                write!(
                    f,
                    "{image}: the metadata could not be read or made: {fault}"
                )
            }
            ServeFault::WrongWayRound(local, peer) => write!(
                f,
                "{peer} was the local image, and {local} the peer's: give --local {peer} --peer {local}, or remove both metadata files to begin anew"
            ),
            ServeFault::UnreadState(image, error) => {
                write!(f, "{image} could not be looked at: {error}")
            }
            ServeFault::NoRandomBytes(error) => {
                write!(f, "the system gives no random bytes: {error}")
            }
            ServeFault::BrokenMetadata => f.write_str(
                "a metadata file could not be written: the next start copies what it still has, or all of the local image",
            ),
        }
    }
}

impl<'a> From<ListenFault> for ServeFault<'a> {
    fn from(fault: ListenFault) -> ServeFault<'a>
        ensures { result ≡ Unbound fault }
    {
        ServeFault::Unbound(fault)
    }
}

impl<'a> From<Refusal> for ServeFault<'a> {
    fn from(refusal: Refusal) -> ServeFault<'a>
        ensures { result ≡ Refused refusal }
    {
        ServeFault::Refused(refusal)
    }
}

/// Returns why the sessions of a server failed, or a dry run. They read for themselves in the comparison before the first session alone.
pub fn fault_of_comparison<'a>(refusal: Refusal) -> ServeFault<'a> {
    match refusal {
        Refusal::ReadFault => ServeFault::Unread,
        refusal => ServeFault::Refused(refusal),
    }
}
