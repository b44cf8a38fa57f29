//! A list of frames that only contracts read.
ghost use Rattle.std.specs.Prelude.{◌≡◌, []};
ghost use Rattle.std.specs.Borrow.{ftrue};
ghost use Rattle.link.specs.Past.{Went, and_then, over};

use packets::Frame;
use std::marker::Model;

/// The frames that passed a point of a link on the current connection, in order, and those of the connections
/// before it. It takes no bytes, and its calls do nothing when the program runs.
#[derive(Drop)]
pub struct GhostFrames {
    pub ghost went: { Went },
}

impl Model for GhostFrames {
    ghost also_owns = { λ _. ftrue };
}

// It owns nothing.
unsafe impl Send for GhostFrames {}

impl GhostFrames {
    /// Returns the frames at the beginning of a first connection.
    pub fn new() -> GhostFrames
        ensures { result.went ≡ record { frames = []; past = [] } }
    {
        GhostFrames {}
    }

    /// Returns the frames after another frame has passed.
    pub fn and(&self, _frame: &Frame) -> GhostFrames
        ensures { result.went ≡ and_then _frame.now self.now.went }
    {
        GhostFrames {}
    }

    /// Returns the frames after the end of connection `_number`.
    pub fn over(&self, _number: &u32) -> GhostFrames
        ensures { result.went ≡ over _number.now self.now.went }
    {
        GhostFrames {}
    }
}
