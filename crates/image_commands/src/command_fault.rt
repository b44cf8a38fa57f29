//! Failures of these commands.
use blocks::{BLOCK_BYTES, MAX_DEVICE_BLOCKS};
use image_metadata::{MetadataFault, MetadataFileFault};
use image_store::OpenFault;
use std::{fmt, io};

/// Why a command did nothing, or failed.
#[derive(Drop)]
pub(crate) enum CommandFault<'a> {
    /// The image could not be opened or locked.
    Unopened(&'a str, OpenFault),
    /// No device has as many bytes as the image.
    NoDevice(&'a str),
    /// The images have different lengths.
    OtherLength,
    /// The metadata file could not be opened or locked.
    Metadata(&'a str, MetadataFileFault),
    /// The image is a block device, and no file for its metadata is named.
    UnnamedMetadata(&'a str),
    /// There is metadata already.
    Present(&'a str),
    /// There is no metadata.
    Missing(&'a str),
    /// The metadata could not be read or made.
    Unusable(&'a str, MetadataFault),
    /// An image could not be read.
    Unread(&'a str, io::Error),
    /// The system gave no random bytes.
    NoRandomBytes(io::Error),
    /// The output could not be written.
    Unwritten(io::Error),
    /// There was no memory.
    NoMemory,
    /// This many blocks differ, and no metadata covers them.
    Uncovered(u64),
}

impl fmt::Display for CommandFault<'_> {
    fn fmt<W: fmt::Write>(&self, f: &mut fmt::Formatter<W>) -> fmt::Result {
        match self {
            CommandFault::Unopened(image, fault) => write!(f, "{image}: {fault}"),
            CommandFault::NoDevice(image) => write!(
                f,
                "{image}: an image has 1 to {MAX_DEVICE_BLOCKS} blocks of {BLOCK_BYTES} bytes"
            ),
            CommandFault::OtherLength => f.write_str("the images have different lengths"),
            CommandFault::Metadata(image, fault) => write!(f, "{image}: {fault}"),
            CommandFault::UnnamedMetadata(image) => write!(
                f,
                "{image} is a block device: name a file for its metadata by --metadata"
            ),
            CommandFault::Present(image) => write!(
                f,
                "{image} has metadata: --force makes it anew, and the next server copies all of the local image"
            ),
            CommandFault::Missing(image) => write!(f, "{image} has no metadata"),
            CommandFault::Unusable(image, fault) => write!(f, "{image}: {fault}"),
            CommandFault::Unread(image, error) => write!(f, "{image} could not be read: {error}"),
            CommandFault::NoRandomBytes(error) => {
                write!(f, "the system gives no random bytes: {error}")
            }
            CommandFault::Unwritten(error) => write!(f, "the output could not be written: {error}"),
            CommandFault::NoMemory => f.write_str("there was no memory"),
            CommandFault::Uncovered(count) => write!(
                f,
                "{count} blocks differ, and no metadata covers them: a server would not copy them"
            ),
        }
    }
}
