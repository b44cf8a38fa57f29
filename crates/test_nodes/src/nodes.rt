//! Tests of both nodes over a link whose other end a test has: frames that no peer sends, each as its bytes, and the
//! receipt of a failed write.

mod answers;
mod cases;
mod either_end;
mod failed_write;
mod frames;
mod linked_primary;
mod linked_secondary;
mod other_end;
mod primary_frames;
mod primary_hellos;
mod secondary_frames;
