//! Commands over images that no server uses: making metadata, showing it and its identifiers, and comparing both images of a mirror.
#![tactic(auto)]

mod command_fault;
mod comparison;
mod create;
mod dump;
mod generation_commands;
mod generation_line;
mod held_image;

pub use comparison::verify;
pub use create::create_md;
pub use dump::dump_md;
pub use generation_commands::{get_gi, show_gi};
