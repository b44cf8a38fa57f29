//! The pumps of a link over a socket: one carries the frames of a row to any writer, as bytes, and one carries
//! bytes from any reader into a row, as pieces.
#![tactic(auto)]

mod buffer;
mod end;
mod inward;
mod outward;

pub use buffer::{BUFFER_BYTES, Buffer};
pub use end::PumpEnd;
pub use inward::pump_in;
pub use outward::pump_out;
