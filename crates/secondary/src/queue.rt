//! Lending the queues of a link in one thread. None of this takes memory.
ghost use Rattle.std.specs.Prelude.{◌≡◌, ◌++◌, Some, None, IfSome};
ghost use Rattle.endpoint.specs.Lending.{GivenBack, GivenOut, LaidBack, LaidIn};

use crate::Secondary;
use blocks::Store;
use link::{PlainIn, PlainOut, Queue};

impl<S: Store + Drop> Secondary<PlainOut, PlainIn, S> {
    /// Hands out the queue of the sending side, if it is here. Until it is back, that side counts as full.
    pub fn give_outward(&mut self) -> Option<Queue>
        ensures given { GivenOut result self.old.outgoing self.new.outgoing }
        ensures rest { self.new ≡ record self.old { outgoing = self.new.outgoing } }
    {
        self.outgoing.as_mut()?.give_queue()
    }

    /// Takes the queue of the sending side back.
    pub fn lay_outward(&mut self, queue: Queue)
        requires { IfSome self.old.outgoing (λ o. o.frames ≡ queue.taken ++ queue.frames) }
        ensures laid { LaidBack queue self.old.outgoing self.new.outgoing }
        ensures rest { self.new ≡ record self.old { outgoing = self.new.outgoing } }
    {
        if let Some(outgoing) = &mut self.outgoing {
            outgoing.lay_queue(queue);
        }
    }

    /// Hands out the queue of the receiving side, if it is here.
    pub fn give_inward(&mut self) -> Option<Queue>
        ensures given { GivenBack result self.old.incoming self.new.incoming }
        ensures rest { self.new ≡ record self.old { incoming = self.new.incoming } }
    {
        self.incoming.as_mut()?.give_queue()
    }

    /// Takes the queue in, for the receiving side to take frames from it.
    pub fn lay_inward(&mut self, queue: Queue)
        requires { IfSome self.old.incoming (λ i. queue.taken ≡ i.frames) }
        ensures laid { LaidIn queue self.old.incoming self.new.incoming }
        ensures rest { self.new ≡ record self.old { incoming = self.new.incoming } }
    {
        if let Some(incoming) = &mut self.incoming {
            incoming.lay_queue(queue);
        }
    }
}
