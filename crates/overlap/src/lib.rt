//! The intervals of open writes, with their overlap check.
#![tactic(auto)]

mod held;

pub use held::Held;
