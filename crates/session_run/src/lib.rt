//! A run of a session: writers in threads of their own over both nodes, a thread that cuts their link and reconnects
//! it, one that reports, and the outcome for the two disks at its end.
#![tactic(auto)]

mod fault;
mod images;
mod locked_image;
mod parts;
mod progress;
mod report;
mod saved_image;
mod saving;
mod session;
mod sockets;
mod whole_run;
mod workers;
mod written;

pub use program_values::{Images, LiveOutput, Path, RunOptions};
pub use volume::Host;
pub use whole_run::run;
