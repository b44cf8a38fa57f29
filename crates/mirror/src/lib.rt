//! Two nodes and the link between them in one thread: both open together, and both work until nothing remains to
//! do.
#![tactic(auto)]

mod local;
mod opening;
mod peer;
mod working;

pub use opening::connect;
pub use working::work;
