//! The link between threads.

mod connections;
mod ends;
mod frames;
mod kinds;
mod names;
mod pieces;
mod ring_invariants;
mod threads;
