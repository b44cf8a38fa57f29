//! The sending end of a link that stays in one thread.
ghost use Rattle.std.specs.Prelude.{◌≡◌, ◌<◌, ◌≤◌, ◌↔◌, Option, None, Some, [], ◌++◌, length, IsErr, OnOk, OnErr, IfErr, IfSome};
ghost use Rattle.std.specs.Option.{option_map};
ghost use Rattle.link.specs.Directions.{InState, IsDirection, IsDirectionWith, accepting, restarted_out, room_in};

use crate::ghost_frames::GhostFrames;
use crate::queue::Queue;
use crate::{FrameOut, Offered};
use packets::Frame;
use std::marker::Model;

/// The sending end of one direction. The direction's queue is kept here; while it is lent to the receiving end,
/// this end counts as full.
#[derive(Drop)]
pub struct PlainOut {
    pub(crate) queue: Option<Queue>,
    pub(crate) number: u32,
    pub(crate) sent: GhostFrames,
}

impl Model for PlainOut {
    ghost use Rattle.std.specs.Prelude.{◌≡◌, ◌++◌};
    ghost use Rattle.std.specs.Option.{ForSome};
    ghost use Rattle.link.specs.Directions.{OutState};

    ghost Value = { OutState };

    ghost view = { λ e. record { sent = e.sent.went.frames; number = e.number; past = e.sent.went.past; queue = e.queue } };

    ghost invariant = { λ e. ForSome e.queue (λ q. e.sent.went.frames ≡ q.taken ++ q.frames) };
}

impl PlainOut {
    /// Creates an end that has sent nothing, with its direction's queue.
    pub(crate) fn new(queue: Queue) -> PlainOut
        requires { queue.taken ++ queue.frames ≡ [] }
        ensures { result ≡ record { sent = []; number = 1; past = []; queue = Some queue } }
    {
        PlainOut {
            queue: Some(queue),
            number: 1,
            sent: GhostFrames::new(),
        }
    }

    /// Hands out the queue, if it is here. It takes no memory.
    pub fn give_queue(&mut self) -> Option<Queue>
        ensures given { result ≡ self.old.queue }
        ensures left { self.new ≡ record self.old { queue = None } }
        // What went into the queue is what this end has sent.
        ensures whole { IfSome result (λ q. self.old.sent ≡ q.taken ++ q.frames) }
        ensures fits { IfSome result (λ q. length q.frames ≤ q.capacity) }
        ensures with_queue { IfSome result (λ q. (taker : InState)
            → IsDirection self.old taker → IsDirectionWith self.new taker q) }
    {
        self.queue.take()
    }

    /// Takes the queue back. It takes no memory.
    pub fn lay_queue(&mut self, queue: Queue)
        requires { self.old.sent ≡ queue.taken ++ queue.frames }
        ensures back { self.new ≡ record self.old { queue = Some queue } }
        ensures direction { (taker : InState)
            → IsDirectionWith self.old taker queue → IsDirection self.new taker }
    {
        self.queue = Some(queue);
    }
}

impl FrameOut for PlainOut {
    ghost state = { λ e. record {
      sent = e.sent;
      number = e.number;
      past = e.past;
      partly = None;
      waiting = option_map (λ q. q.frames) e.queue;
      room = Some (room_in e.queue);
    } };

    fn offer(&mut self, frame: Frame) -> Result<(), Offered>
        ensures full { IsErr result ↔ (room_in self.old.queue ≡ 0) }
        ensures accepted { OnOk result (self.new ≡ accepting self.old frame) }
        ensures direction { (taker : InState) → IsDirection self.old taker → IsDirection self.new taker }
        ensures handed_back { IfErr result (λ offered. offered.frame ≡ frame) }
        ensures unchanged { OnErr result (self.new ≡ self.old) }
    {
        let Some(queue) = &mut self.queue else {
            return Err(Offered { frame });
        };
        let sent = self.sent.and(&frame);
        queue.offer(frame)?;
        self.sent = sent;
        Ok(())
    }

    fn restart(&mut self, number: u32)
        requires { self.old.number < number }
        ensures { self.new ≡ restarted_out number self.old }
    {
        if let Some(queue) = &mut self.queue {
            queue.restart();
        }
        self.sent = self.sent.over(&self.number);
        self.number = number;
    }
}
