//! The queue of one direction.
ghost use Rattle.std.specs.Prelude.{◌≡◌, ◌-◌, ◌↔◌, [], ◌∷◌, ◌++◌, length, IsErr, OnOk, OnErr, IfOk, IfErr, MatchOption};
ghost use Rattle.link.specs.Directions.{emptied};
ghost use Rattle.blocks.specs.declared.refusal.Refusal.TheVariants.{NoMemory};

use crate::Offered;
use crate::ghost_frames::GhostFrames;
use blocks::Refusal;
use packets::Frame;
use std::alloc::Global;
use std::collections::VecDeque;
use std::marker::Model;

/// The frames of one direction that were sent and not taken. It is made with room for all that it may
/// hold, so putting a frame in takes no memory.
#[derive(Drop)]
pub struct Queue {
    frames: VecDeque<Frame>,
    capacity: usize,
    taken: GhostFrames,
}

impl Model for Queue {
    ghost use Rattle.std.specs.Prelude.{◌≤◌};
    ghost use Rattle.std.specs.VecDeque.{deque_len, deque_capacity};
    ghost use Rattle.link.specs.Directions.{QueueState};

    ghost Value = { QueueState };

    ghost view = { λ q. record { taken = q.taken.went.frames; frames = q.frames.items; capacity = q.capacity } };

    ghost invariant = { λ q. (q.capacity ≤ deque_capacity q.frames) × (deque_len q.frames ≤ q.capacity) };
}

impl Queue {
    /// Creates an empty queue for `capacity` frames. `NoMemory` (7) if there is no room for them.
    pub(crate) fn new(alloc: Global, capacity: u32) -> Result<Queue, Refusal>
        ensures empty { IfOk result (λ q. q ≡ record { taken = []; frames = []; capacity = capacity }) }
        ensures refused { IfErr result (λ e. e ≡ NoMemory) }
    {
        let capacity = capacity as usize;
        let frames = VecDeque::with_capacity(alloc, capacity)?;
        Ok(Queue {
            frames,
            capacity,
            taken: GhostFrames::new(),
        })
    }

    /// Puts a frame in, or hands it back if the queue is full. It takes no memory.
    pub(crate) fn offer(&mut self, frame: Frame) -> Result<(), Offered>
        ensures full { IsErr result ↔ (self.old.capacity - length self.old.frames ≡ 0) }
        ensures put { OnOk result (self.new ≡ record self.old { frames = self.old.frames ++ frame ∷ [] }) }
        ensures handed_back { IfErr result (λ offered. offered.frame ≡ frame) }
        ensures unchanged { OnErr result (self.new ≡ self.old) }
    {
        if self.frames.len() >= self.capacity {
            return Err(Offered { frame });
        }
        self.frames.push_back_reserved(frame);
        Ok(())
    }

    /// Begins a connection: drops what is in the queue. It takes no memory.
    pub(crate) fn restart(&mut self)
        ensures { self.new ≡ emptied self.old }
    {
        self.frames.clear();
        self.taken = GhostFrames::new();
    }

    /// Takes the first frame out. It takes no memory.
    pub(crate) fn take(&mut self) -> Option<Frame>
        ensures { MatchOption result ((self.old.frames ≡ []) × (self.new ≡ self.old))
            (λ frame. (self.old.frames ≡ frame ∷ self.new.frames)
            × (self.new.taken ≡ self.old.taken ++ frame ∷ [])
            × (self.new.capacity ≡ self.old.capacity)) }
    {
        let frame = self.frames.pop_front()?;
        self.taken = self.taken.and(&frame);
        Some(frame)
    }
}
