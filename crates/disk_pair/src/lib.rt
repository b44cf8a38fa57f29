//! The disks of a mirror's two images together: opened, compared before the first session and at the end, and how much a start copies.
#![tactic(auto)]

mod compare;
mod differing;
mod disks;
mod known_peer;
mod opening;
mod to_copy;

pub use compare::{LastComparison, compare_at_end};
pub use differing::first_marks;
pub use disks::Disks;
pub use known_peer::is_peer_known;
pub use opening::{Unopened, open_both};
pub use to_copy::{ToCopy, mebibytes};
