//! A secondary without its link and its disk: which frames it takes and what becomes of them, which items its disk
//! may do, which acknowledgements it owes to the primary, and how far its data may be used. It does no input or
//! output; packets and numbers go in and come out.
#![tactic(auto)]

mod answer;
mod close;
mod connection;
mod disk;
mod handshake;
mod inbox;
mod item;
mod open;
mod outbox;
mod resyncing;
mod send;
mod state;
mod take;
mod usage;

pub use item::PendingItem;
pub use state::SecondaryCore;
pub use usage::Usage;
