//! The two nodes of a session, each kept under a lock: a node whose connections all used one link.
#![tactic(auto)]

mod beginning;
mod session_primary;
mod session_secondary;

pub use beginning::{Beginning, Unknown};
pub use session_primary::SessionPrimary;
pub use session_secondary::SessionSecondary;
