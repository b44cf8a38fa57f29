//! Links between the two nodes: each direction carries frames in order.
#![tactic(auto)]

mod ends;
mod ghost_frames;
mod inward;
mod outward;
mod plain;
mod queue;

pub use ends::{FrameIn, FrameOut, Offered};
pub use ghost_frames::GhostFrames;
pub use inward::PlainIn;
pub use outward::PlainOut;
pub use plain::{PlainEnds, PlainLink};
pub use queue::Queue;
