//! Tests of the script language: scripts that loops make, bytes that are not text, and streams that fail or count.

mod decisions;
mod faults;
mod keys;
mod pieces;
mod run;
mod usage;
