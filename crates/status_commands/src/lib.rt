//! The commands that ask running servers of a name for their status, or wait for it.
#![tactic(auto)]

mod answer;
mod asking;
mod drbd_json;
mod end;
mod names;
mod server;
mod told;
mod waiting;

pub use asking::ask;
pub use end::QueryEnd;
pub use waiting::wait;
