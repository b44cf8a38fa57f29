//! The nodes' parts.

mod activity;
mod device;
mod pending;
mod zeros;
