//! A session over streams of bytes, such as sockets: each node under a lock of its own, worked by threads, and pumps
//! that carry their frames.
#![tactic(auto)]

mod session;
mod sockets;

pub use session::{
    LockedStreamPrimary, LockedStreamSecondary, SharedStreamSession, StreamPrimary,
    StreamSecondary, StreamSession,
};
pub use session_api::{Device, SessionStart};
pub use session_nodes::{Beginning, Unknown};
pub use session_threads::{Runtime, SharedSession, Sink, Source, Way, Ways};
pub use sockets::{Socket, loopback};
