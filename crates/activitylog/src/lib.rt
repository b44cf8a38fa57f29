//! The activity log: which extents of a device are active, and how many unreleased writes each has.
#![tactic(auto)]

mod log;

pub use log::ActivityLog;
