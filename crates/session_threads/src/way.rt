//! Byte streams for the frames of a session.
use std::io::{Read, Write};

/// A writer for a pump: every writer that may go from thread to thread is one.
pub trait Sink: Write + Drop + Send + 'static {}

impl<W: Write + Drop + Send + 'static> Sink for W {}

/// A reader for a pump: every reader that may go from thread to thread is one.
pub trait Source: Read + Drop + Send + 'static {}

impl<D: Read + Drop + Send + 'static> Source for D {}

/// One direction of a session's link: what is written to the writer comes out of the reader. The writer keeps nothing back,
/// as a `BufWriter` would. Dropping it ends the reader's input, whatever else is open: the end of a session waits for that.
#[derive(Drop)]
pub struct Way<W: Write + Drop, D: Read + Drop> {
    pub writer: W,
    pub reader: D,
}

/// Both directions of a session's link.
#[derive(Drop)]
pub struct Ways<A, B> {
    /// The way of frames to the secondary.
    pub to_secondary: A,
    /// The way back.
    pub to_primary: B,
}
