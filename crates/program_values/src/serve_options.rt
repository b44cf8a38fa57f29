//! The options of a server.
use crate::{ListenAt, ServerName};
use blocks::Protocol;

/// Where the metadata of a server's images is.
#[derive(Clone, Copy, Debug, PartialEq, Eq)]
pub enum MetadataFiles<'a> {
    /// There is none: at each start nothing is known of the images.
    Unkept,
    /// In these files; where none is named, beside its image, as `IMAGE.metadata`.
    Kept {
        local: Option<&'a str>,
        peer: Option<&'a str>,
    },
}

/// How a server begins over two images about which it knows nothing.
#[derive(Clone, Copy, Debug, PartialEq, Eq)]
pub enum FirstStart {
    /// It compares them, and copies the blocks that differ; all of the local image without metadata.
    Compare,
    /// It copies all of the local image.
    Copy,
    /// It takes them as alike.
    AssumeEqual,
}

/// The options of a server.
#[derive(Drop)]
pub struct ServeOptions<'a> {
    /// The image of the local disk.
    pub local: &'a str,
    /// The image of the peer's disk, of the same length.
    pub peer: &'a str,
    /// Blocks of the device, 1 to 2,147,483,648; if none is given, as many as the local image has.
    pub blocks: Option<u32>,
    /// Where the metadata of both is.
    pub metadata: MetadataFiles<'a>,
    /// When a write is completed.
    pub protocol: Protocol,
    /// Where clients connect.
    pub listen: Vec<ListenAt<'a>>,
    /// Where clients of the status page connect.
    pub pages: Vec<ListenAt<'a>>,
    /// Its name, if it has one: then its folder has a socket for clients of the status page, too.
    pub name: Option<ServerName<'a>>,
    /// The seconds after which the link is cut each time, if it is cut at all.
    pub cut_every: Option<u32>,
    /// What is done with the images at the start.
    pub first: FirstStart,
    /// Whether the images are compared at the end, though they are large.
    pub compare: bool,
}
