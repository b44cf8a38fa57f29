//! The handshake of a connection: the three frames that each node sends before its stream begins.
#![tactic(auto)]

mod handshake;
mod hello;

pub use handshake::Handshake;
pub use hello::{HELLO_FRAMES, Hello};
