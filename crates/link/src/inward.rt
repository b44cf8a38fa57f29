//! The receiving end of a link that stays in one thread.
ghost use Rattle.std.specs.Prelude.{◌≡◌, ◌<◌, Option, None, Some, [], ◌∷◌, ◌++◌, true, IsOk, OnErr, IfOk, IfErr, IfSome};
ghost use Rattle.std.specs.Option.{option_map};
ghost use Rattle.link.specs.Directions.{OutState, IsDirection, IsDirectionWith, frames_in, restarted_in, restarted_out};
ghost use Rattle.link.specs.Taking.{TakesFirst};
ghost use Rattle.blocks.specs.declared.refusal.Refusal.TheVariants.{NothingThere};

use crate::FrameIn;
use crate::ghost_frames::GhostFrames;
use crate::queue::Queue;
use blocks::Refusal;
use packets::Frame;
use std::marker::Model;

/// The receiving end of one direction. While the direction's queue is not here, this end counts as empty.
#[derive(Drop)]
pub struct PlainIn {
    pub(crate) queue: Option<Queue>,
    pub(crate) number: u32,
    pub(crate) taken: GhostFrames,
}

impl Model for PlainIn {
    ghost use Rattle.std.specs.Prelude.{◌≡◌};
    ghost use Rattle.std.specs.Option.{ForSome};
    ghost use Rattle.link.specs.Directions.{InState};

    ghost Value = { InState };

    ghost view = { λ e. record { taken = e.taken.went.frames; number = e.number; past = e.taken.went.past; queue = e.queue } };

    ghost invariant = { λ e. ForSome e.queue (λ q. e.taken.went.frames ≡ q.taken) };
}

impl PlainIn {
    /// Creates an end that has taken nothing.
    pub(crate) fn new() -> PlainIn
        ensures { result ≡ record { taken = []; number = 1; past = []; queue = None } }
    {
        PlainIn {
            queue: None,
            number: 1,
            taken: GhostFrames::new(),
        }
    }

    /// Hands out the queue, if it is here. It takes no memory.
    pub fn give_queue(&mut self) -> Option<Queue>
        ensures given { result ≡ self.old.queue }
        ensures left { self.new ≡ record self.old { queue = None } }
        ensures taken { IfSome result (λ q. q.taken ≡ self.old.taken) }
        ensures with_queue { IfSome result (λ q. (sender : OutState)
            → IsDirection sender self.old → IsDirectionWith sender self.new q) }
    {
        self.queue.take()
    }

    /// Takes the queue in, to take from it. It takes no memory.
    pub fn lay_queue(&mut self, queue: Queue)
        requires { queue.taken ≡ self.old.taken }
        ensures here { self.new ≡ record self.old { queue = Some queue } }
        ensures direction { (sender : OutState)
            → IsDirectionWith sender self.old queue → IsDirection sender self.new }
    {
        self.queue = Some(queue);
    }
}

impl FrameIn for PlainIn {
    ghost state = { λ e. record {
      taken = e.taken;
      number = e.number;
      past = e.past;
      is_ready = true;
      queued = Some (frames_in e.queue);
      capacity = option_map (λ q. q.capacity) e.queue;
    } };

    fn ready(&mut self) -> Result<(), Refusal>
        ensures works { IsOk result }
        ensures unchanged { self.new ≡ self.old }
    {
        Ok(())
    }

    fn take(&mut self) -> Result<Frame, Refusal>
        ensures next { IfOk result (λ frame. self.new.taken ≡ self.old.taken ++ frame ∷ []) }
        ensures exact { TakesFirst (Some (frames_in self.old.queue)) result (Some (frames_in self.new.queue)) }
        ensures direction { (sender : OutState) → IsDirection sender self.old → IsDirection sender self.new }
        ensures refused { IfErr result (λ e. e ≡ NothingThere) }
        ensures unchanged { OnErr result (self.new ≡ self.old) }
        ensures same_capacity { option_map (λ q. q.capacity) self.new.queue
            ≡ option_map (λ q. q.capacity) self.old.queue }
        ensures same_number { self.new.number ≡ self.old.number }
        ensures same_past { self.new.past ≡ self.old.past }
    {
        let Some(queue) = &mut self.queue else {
            return Err(Refusal::NothingThere);
        };
        let Some(frame) = queue.take() else {
            return Err(Refusal::NothingThere);
        };
        self.taken = self.taken.and(&frame);
        Ok(frame)
    }

    fn restart(&mut self, number: u32)
        requires { self.old.number < number }
        ensures restarted { self.new ≡ restarted_in number self.old }
        // If the other end restarts too, they are still the ends of one direction.
        ensures direction { (sender : OutState) → IsDirection sender self.old
            → IsDirection (restarted_out number sender) self.new }
    {
        if let Some(queue) = &mut self.queue {
            queue.restart();
        }
        self.taken = self.taken.over(&self.number);
        self.number = number;
    }
}
