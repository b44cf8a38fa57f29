//! The transfer log of a primary: the writes that are not released, with their states.
#![tactic(auto)]

mod ghost_numbers;
mod last_writes;
mod local;
mod log;
mod protocol;
mod report;
mod ring;
mod write;

pub use local::Local;
pub use log::TransferLog;
pub use report::{Accepted, AckedWrite, Completed, PeerAck, Released};
pub use write::Write;
