//! Tests of pumps over any streams, and of what a node takes over pumps if its connection is lost after each byte.

mod cuts;
mod ends;
mod receiver;
mod sender;
mod streams;
