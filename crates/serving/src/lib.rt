//! Block clients: a server of the network block device protocol over one session after another of two images. Any
//! number of clients at a time read and write one export, while the session mirrors it.
#![tactic(auto)]

mod server;
mod session;
mod sessions;

pub use file_store::{AnyContents, OpeningContents};
pub use image_metadata::{AnyBytes, OpeningBytes};
pub use program_values::{FirstStart, ListenAt, MetadataFiles, ServeOptions, ServerName};
pub use served_images::dry_run;
pub use server::serve;
pub use volume::Host;
