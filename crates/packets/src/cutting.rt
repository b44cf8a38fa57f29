//! The end of a frame in a sequence of bytes.
ghost use Rattle.std.specs.Prelude.{◌≡◌, ◌≤◌, length, true};
ghost use Rattle.packets.specs.Reading.{header_at};
ghost use Rattle.packets.specs.Cutting.{IsCut, cut_after};

use crate::Frame;
use crate::header::{HEADER_BYTES, Header};

/// Bytes of the longest frame, a write of 32 blocks.
pub const MAX_FRAME_BYTES: usize = 131_104;

/// Returns how many bytes a reader cuts off as one frame, by the first 8 of them: the header and its payload, or
/// these 8 alone if the header is faulty. At most those of the longest frame.
#[tactic(auto, using(crate::proofs::Rows::header_most))]
pub fn cut_length(header: &[u8]) -> usize
    requires { 8 ≤ length header.now }
    ensures cut { result ≡ cut_after (header_at header.now) }
    ensures least { 8 ≤ result }
    ensures most { result ≤ MAX_FRAME_BYTES }
{
    match Header::judge(header) {
        Ok(header) => HEADER_BYTES + header.len as usize,
        Err(_) => HEADER_BYTES,
    }
}

/// Returns whether a frame is what a reader cuts off: it has a header, and is as long as the header says, or is a faulty header
/// alone.
pub fn is_cut(frame: &Frame) -> bool
    ensures cut { result ≡ true → IsCut frame.now }
    ensures only { IsCut frame.now → result ≡ true }
{
    let (front, _) = frame.parts();
    front.len() >= HEADER_BYTES && frame.has_length(cut_length(front))
}
