//! The status line of a node: what it shows, and its bytes.
#![tactic(auto)]

mod lines;
mod words;

pub use lines::{PrimaryLine, SecondaryLine, protocol_name};
pub use words::{DiskState, LinkState, Role, Words};
