//! The places and epochs of one connection's stream.
#![tactic(auto)]

mod epochs;
mod law;

pub use epochs::Epochs;
pub use law::streams_are_lawful;
