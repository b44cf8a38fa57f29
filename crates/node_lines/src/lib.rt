//! What each node shows: its status line, and how far it has come.
#![tactic(auto)]

mod connection_items;
mod nodes;
mod primary_progress;
mod secondary_progress;

pub use connection_items::ConnectionItems;
pub use nodes::{primary_line, secondary_line};
pub use primary_progress::PrimaryProgress;
pub use secondary_progress::SecondaryProgress;
