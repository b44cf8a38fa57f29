//! A disk over a file, with no copy in memory.
#![tactic(auto)]

mod opening;
mod remains;
mod store;

pub use opening::{AnyContents, OpeningContents};
pub use store::FileStore;
