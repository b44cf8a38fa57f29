//! A file whose calls are on record, for clauses alone: at which path it was opened, what it was told to hold, and what it gave.
#![tactic(auto)]

mod file;
mod holes;
mod length;
mod opened;
mod record;
mod shared;
mod stretch;

pub use file::RecordedFile;
pub use length::bytes_of;
pub use opened::OpenedFile;
pub use shared::SharedFile;
pub use stretch::Stretch;
