//! The bitmap of a device: the marked blocks, which the peer may lack.
#![tactic(auto)]

mod full;
mod marks;

pub use marks::Bitmap;
