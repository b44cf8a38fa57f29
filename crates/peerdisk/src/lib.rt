//! The items that a secondary has taken and not applied yet, and the blocks that the items of the last epoch cover.
#![tactic(auto)]

mod disk;
mod last_epoch;
mod slots;
mod words;

pub use disk::PeerDisk;
pub use last_epoch::LastEpoch;
