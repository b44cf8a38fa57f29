//! The status of a running server over HTTP: the status lines of both nodes as text, as a page for people, as JSON, and as metrics.
#![tactic(auto)]

mod document;
mod histogram;
mod html;
mod json;
mod latencies;
mod map;
mod map_html;
mod meanings;
mod metrics;
mod page;
mod report;
mod samples;
mod start;

pub use latencies::{BOUNDS, CommandLatency, Latencies, bucket_of};
pub use map::{CellState, DeviceMap};
pub use page::{ReportSource, answer_one};
pub use report::{MetadataWrites, ReceiptCounts, Resync, StatusReport};
pub use start::{ServerStart, StartedAfter};
