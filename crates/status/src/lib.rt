//! The status lines of a pair, made of those of its nodes.
#![tactic(auto)]

mod lines;

pub use lines::line;
pub use node_lines::{primary_line, secondary_line};
