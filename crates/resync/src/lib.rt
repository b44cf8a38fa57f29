//! A resync at its source: the choice of its next block, and the block that it has under way.
#![tactic(auto)]

mod choice;
mod under_way;

pub use choice::next;
pub use under_way::{Resync, UnderWay};
