//! The log of a server: a line for each event, with a date or, under a service manager, with a priority.
#![tactic(auto)]

mod bars;
mod event;
mod lines;
mod moment;
mod style;

pub use bars::bar;
pub use event::{Copied, Event};
pub use lines::{line, tell};
pub use style::Style;
