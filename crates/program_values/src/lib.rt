//! The programs' options, numbers, exit statuses, result lines and version in plain values: for a run of a session, with the
//! plan of its writes, for a server, and for commands over images.
#![tactic(auto)]

mod comparison;
mod image_options;
mod listen;
mod number;
mod plan;
mod queries;
mod release;
mod results;
mod run_options;
mod serve_options;
mod status;

pub use comparison::Comparison;
pub use image_options::{DumpFormat, ImageOptions, VerifyOptions};
pub use listen::{ListenAt, ServerName};
pub use number::{byte, decimal};
pub use plan::{byte_of_turn, reconnect_words};
pub use queries::{Asked, Awaited, Question, WaitOptions};
pub use release::{NO_COMMIT, VERSION, version_text};
pub use results::Results;
pub use run_options::{Images, LiveOutput, Path, RunOptions};
pub use serve_options::{FirstStart, MetadataFiles, ServeOptions};
pub use status::{SessionStatus, Status};
