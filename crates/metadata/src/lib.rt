//! The metadata of one disk of a mirror, on stable storage: which blocks may differ from the peer's, and its identifiers.
#![tactic(auto)]

mod codec;
mod creation;
mod enter_all;
mod fault;
mod header;
mod identifiers;
mod judge;
mod layout;
mod memory_file;
mod metadata;
mod metadata_file;
mod opening;
mod raw_file;
mod record;
mod slots;
mod stable_file;

pub use creation::create;
pub use fault::{FileFault, MetadataFault};
pub use header::Header;
pub use identifiers::{BootId, CleanEnd, Identifiers};
pub use layout::{MAGIC, MAX_EXTENTS, VERSION};
pub use memory_file::{AfterCrash, MemoryFile, SparseBytes, Trouble};
pub use metadata::{MAX_MARKS, Metadata};
pub use metadata_file::{AnyBytes, MetadataFile, OpeningBytes};
pub use opening::open;
pub use raw_file::RawFile;
pub use record::Record;
pub use stable_file::StableFile;

#[cfg(test)]
mod tests;
