//! The secondary as a node: its core, its disk and both ends of its link. Every call is a step of its model
//! history.
#![tactic(auto)]

mod acknowledge;
mod close;
mod ends;
mod open;
mod parts;
mod peer;
mod queue;
mod read;
mod receive;
mod state;
mod usage;

pub use blocks::{Block, Done, Refusal, Settings, Store, Tuple};
pub use endpoint::{PacketReceiver, PacketSender};
pub use link::{FrameIn, FrameOut};
pub use parts::Unlinked;
pub use secondary_core::Usage;
pub use state::Secondary;
