//! The sending end of a link between threads.
ghost use Rattle.std.specs.Prelude.{◌≡◌, ◌<◌, ◌≤◌, [], length, OnOk, OnErr, IfErr, IfSome};
ghost use Rattle.packets.specs.Cutting.{IsCut};
ghost use Rattle.thread_link.specs.Moments.{WasFull};
ghost use Rattle.thread_link.specs.Outward.{sending, sending_anew, unused_out, with_part, with_sent};

use crate::{NoInvariant, RingInvariant, RowOut};
use link::{FrameOut, GhostFrames, Offered};
use packets::Frame;
use std::marker::Model;
use std::sync::Wait;

/// The sending end of one direction of a link whose two ends may be in two threads. It pushes each frame as it is: none of its
/// bytes is copied.
#[derive(Drop)]
pub struct RuledOut<R: Wait, M: RingInvariant = NoInvariant> {
    pub(crate) pieces: RowOut<R, M>,
    pub(crate) number: u32,
    pub(crate) sent: GhostFrames,
    // The frame that was offered last, if it was not pushed.
    pub(crate) part: GhostFrames,
}

impl<R: Wait, M: RingInvariant> Model for RuledOut<R, M> {
    ghost use Rattle.thread_link.specs.Outward.{OutwardState, Sends, outward_state};

    ghost Value = { OutwardState };

    ghost view = { λ e. outward_state e.pieces e.sent.went e.number e.part.went.frames };

    ghost invariant = { λ e. Sends (outward_state e.pieces e.sent.went e.number e.part.went.frames) };
}

impl<R: Wait, M: RingInvariant> RuledOut<R, M> {
    /// Creates an end that pushes to `pieces`, on a first connection.
    pub fn new(pieces: RowOut<R, M>) -> RuledOut<R, M>
        requires { pieces.pieces ≡ [] }
        ensures { result ≡ unused_out pieces.row }
    {
        RuledOut {
            pieces,
            number: 1,
            sent: GhostFrames::new(),
            part: GhostFrames::new(),
        }
    }
}

impl<R: Wait, M: RingInvariant> FrameOut for RuledOut<R, M> {
    ghost state = { λ e. sending e };

    fn offer(&mut self, frame: Frame) -> Result<(), Offered>
        requires whole { IsCut frame }
        requires again { IfSome self.old.partly (λ begun. begun ≡ frame) }
        ensures accepted { OnOk result (self.new ≡ with_sent frame self.new self.old) }
        ensures handed_back { IfErr result (λ offered. offered.frame ≡ frame) }
        ensures in_part { OnErr result (self.new ≡ with_part frame self.new self.old) }
        ensures full { OnErr result (WasFull M.holds self.new.row self.new.pieces) }
    {
        let sent = self.sent.and(&frame);
        let part = GhostFrames::new().and(&frame);
        match self.pieces.push_frame(self.number, frame) {
            Ok(()) => {
                self.sent = sent;
                self.part = GhostFrames::new();
                Ok(())
            }
            Err(frame) => {
                self.part = part;
                Err(Offered { frame })
            }
        }
    }

    fn restart(&mut self, number: u32)
        requires { self.old.number < number }
        ensures { self.new ≡ sending_anew number self.old }
    {
        self.sent = self.sent.over(&self.number);
        self.number = number;
        self.part = GhostFrames::new();
    }
}
