//! What the callers of a primary were told, one thing after another, as a log that clauses alone read, and where it stands in a history.
#![tactic(auto)]

mod caller;
mod entry;
mod kinds;
mod own_numbers;

pub use caller::{Caller, Callers, open_log};
pub use entry::{Told, ToldLog, ToldSeen};
