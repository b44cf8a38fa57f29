//! The settlement of two nodes at rest, and what the next session over their disks starts from.
//!
//! A settlement tells how many items of the last connection were sent, taken and applied, whether the callers'
//! receipts are those of the journal, and on how many unmarked blocks the disks differ.
#![tactic(auto)]

mod compare;
mod law;
mod parts;
mod settlement;

pub use law::what_is_left;
pub use parts::parts_after;
pub use settlement::{Confirmed, Settled, confirm, confirm_all, is_at_rest, settle};
