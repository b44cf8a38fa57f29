//! The ends of a link that stays in one thread: a direction's queue is lent from the sending side to the receiving
//! side for one take. None of this takes memory.
ghost use Rattle.std.specs.Prelude.{◌≡◌, ◌-◌, ◌≤◌, ◌++◌, [], length, Some, None, is_some, IfSome};

use crate::{PacketReceiver, PacketSender};
use link::{PlainIn, PlainOut, Queue};

impl PacketSender<PlainOut> {
    /// Hands out the queue, if it is here. Until it is back, this side counts as full.
    pub fn give_queue(&mut self) -> Option<Queue>
        ensures there { is_some result ≡ is_some self.old.waiting }
        ensures left { self.new ≡ record self.old { room = Some 0; waiting = None } }
        ensures whole { IfSome result (λ q. self.old.frames ≡ q.taken ++ q.frames) }
        ensures known { IfSome result (λ q. (self.old.room ≡ Some (q.capacity - length q.frames))
            × (self.old.waiting ≡ Some (length q.frames)) × (length q.frames ≤ q.capacity)) }
    {
        self.end.give_queue()
    }

    /// Takes the queue back.
    pub fn lay_queue(&mut self, queue: Queue)
        requires { self.old.frames ≡ queue.taken ++ queue.frames }
        ensures { self.new ≡ record self.old {
          room = Some (queue.capacity - length queue.frames);
          waiting = Some (length queue.frames);
        } }
    {
        self.end.lay_queue(queue);
    }
}

impl PacketReceiver<PlainIn> {
    /// Hands out the queue, if it is here. Until it is back, this side counts as empty.
    pub fn give_queue(&mut self) -> Option<Queue>
        ensures there { is_some result ≡ is_some self.old.capacity }
        ensures left { self.new ≡ record self.old { queued = Some []; capacity = None } }
        ensures given { IfSome result (λ q. (q.taken ≡ self.old.frames)
            × (self.old.queued ≡ Some q.frames) × (self.old.capacity ≡ Some q.capacity)) }
    {
        self.end.give_queue()
    }

    /// Takes the queue in, to take from it.
    pub fn lay_queue(&mut self, queue: Queue)
        requires { queue.taken ≡ self.old.frames }
        ensures { self.new ≡ record self.old {
          queued = Some queue.frames;
          capacity = Some queue.capacity;
        } }
    {
        self.end.lay_queue(queue);
    }
}
