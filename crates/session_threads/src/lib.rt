//! The threads of a session over any two halves: what callers share, the loop of each thread, the hello, and the pumps
//! of a session over streams.
#![tactic(auto)]

mod carriers;
mod hello;
mod running;
mod shared;
mod shared_session;
mod way;
mod workers;

pub use carriers::{PumpEnds, Rows, half_rows};
pub use running::Running;
pub use session_api::{Begun, Device, Host, Runtime};
pub use shared_session::SharedSession;
pub use way::{Sink, Source, Way, Ways};
