//! Tests of the nodes' cores: worked rows, and frames that a peer does not send.

mod cases;
mod primary_calls;
mod primary_decisions;
mod primary_frames;
mod primary_refusals;
mod primary_resync;
mod primary_rows;
mod primary_tables;
mod secondary_calls;
mod secondary_frames;
mod secondary_rows;
