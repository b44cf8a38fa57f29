//! The locked primary with the log of what its callers were told, and where all of it stands once the node is out of its lock.
#![tactic(auto)]

mod patch;
mod standing;
mod told_primary;

pub use standing::stand;
pub use told_primary::ToldPrimary;
