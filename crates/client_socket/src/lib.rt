//! A client's socket, the replies that wait to be written to it, and where a server listens for it.
#![tactic(auto)]

mod address;
mod client_stream;
mod limited_stream;
mod listen_fault;
mod piece;
mod reply_queue;
mod timed_writer;

pub use address::Address;
pub use client_stream::ClientStream;
pub use limited_stream::LimitedStream;
pub use listen_fault::ListenFault;
pub use reply_queue::{QueueFault, ReplyQueue};
pub use timed_writer::{Outcome, is_passing};
