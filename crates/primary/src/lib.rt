//! The primary as a node: its core, its disk and both ends of its link. Every call is a step of its model history.
#![tactic(auto)]

mod acknowledge;
mod close;
mod confirm;
mod ends;
mod local;
mod open;
mod parts;
mod queue;
mod read;
mod receipts;
mod resyncing;
mod send;
mod state;
mod submit;
mod usage;

pub use blocks::{Block, Done, Refusal, Settings, Store, Tuple};
pub use endpoint::{PacketReceiver, PacketSender};
pub use link::{FrameIn, FrameOut};
pub use parts::Unlinked;
pub use primary_core::{Fate, JournalEntry};
pub use receipts::{CompletionKind, Receipt};
pub use state::Primary;
