//! Tests of a pair by its events: worked examples in which memory is refused, and in which a disk fails a call.

mod disks;
mod events;
mod memory;
mod resyncs;
mod rows;
mod seen;
