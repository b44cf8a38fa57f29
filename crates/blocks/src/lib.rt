//! The types that every layer of the mirror uses: blocks and ranges of a device, the stores that hold them, the
//! settings of a pair, refusals, identifiers, and what a step reports.
#![tactic(auto)]

mod block;
mod command;
mod connection_words;
mod faulty;
mod ghost_count;
mod memory;
mod outcome;
mod position;
mod range;
mod refusal;
mod settings;
mod store;
mod tuple;
mod zeros;

pub use block::{BLOCK_BYTES, Block, EXTENT_BLOCKS, Extent, MAX_BLOCKS, MAX_DEVICE_BLOCKS};
pub use command::Command;
pub use connection_words::ConnectionWords;
pub use faulty::FaultStore;
pub use ghost_count::GhostCount;
pub use memory::MemStore;
pub use outcome::{Decision, Done, Reply, What};
pub use position::StreamPosition;
pub use range::{MAX_RANGE, Range};
pub use refusal::Refusal;
pub use settings::{Protocol, Settings};
pub use store::{Store, StoreFault};
pub use tuple::Tuple;
pub use zeros::are_zeros;
