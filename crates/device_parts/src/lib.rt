//! Bytes for places of a device, as whoever writes hands them over.
#![tactic(auto)]

mod part;

pub use part::Part;
