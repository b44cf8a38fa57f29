//! A primary without its link and its disk: a state machine that takes and gives packets, numbers and shared bytes.
#![tactic(auto)]

mod close;
mod connection;
mod disk;
mod entry;
mod finish_step;
mod handshake;
mod item;
mod open;
mod outbox;
mod receipts;
mod report;
mod resyncing;
mod send;
mod state;
mod submit;
mod take;
mod usage;

pub use entry::{Fate, JournalEntry};
pub use state::PrimaryCore;
