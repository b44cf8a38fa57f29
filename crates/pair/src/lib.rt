//! A primary and a secondary in one thread, with the link between them: `run` takes a pair through a list of
//! events, and returns the reply to each. Its contract states what holds of every run.
#![tactic(auto)]

mod carry;
mod event;
mod open;
mod pair;
mod queries;
mod runs;
mod steps;

pub use blocks::{Block, Decision, Done, MemStore, Refusal, Reply, Settings, Tuple, What};
pub use event::{Event, Side};
pub use pair::{Pair, PrimaryNode, SecondaryNode};
pub use runs::run;
