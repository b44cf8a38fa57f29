//! The beginning of a session.
use bitmap::Bitmap;
use blocks::{ConnectionWords, Settings, Tuple};

/// What a session starts from: the settings of both nodes, the generation identifiers of each disk, the bitmap of the
/// local one, the first connection's two words, and whether the link is cut right after the first hello, before anything
/// is sent to the peer's disk.
#[derive(Drop)]
pub struct SessionStart {
    pub settings: Settings,
    pub own: Tuple,
    pub peer: Tuple,
    pub marks: Bitmap,
    pub words: ConnectionWords,
    pub is_cut: bool,
}
