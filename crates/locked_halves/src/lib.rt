//! The halves of a session: each is one node under one lock, with the bells that its threads wait on. Neither knows the
//! other half.
#![tactic(auto)]

mod locked_primary;
mod locked_secondary;

pub use locked_primary::LockedPrimary;
pub use locked_secondary::LockedSecondary;
