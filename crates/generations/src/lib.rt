//! Generation identifiers: the test of a new word, the changes of a node's tuple, and what a primary does with a peer
//! after comparing the two tuples.
#![tactic(auto)]

mod decision;
mod rotation;
mod words;

pub use blocks::Tuple;
pub use decision::decide;
pub use rotation::Generations;
pub use words::{fresh, stands_in};
