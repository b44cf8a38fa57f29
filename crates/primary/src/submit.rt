//! Accepting a write.
ghost use Rattle.std.specs.Prelude.{◌≡◌, IfOk};
ghost use Rattle.blocks.specs.declared.outcome.Reply.TheVariants as reply;
ghost use Rattle.blocks.specs.declared.outcome.What.TheVariants as what;
ghost use Rattle.endpoint.specs.Calls.{is_out_of_memory};
ghost use Rattle.model.specs.LocalRuns.{Submits};
ghost use Rattle.primary_protocol.specs.Node.{NodeSteps};
ghost use Rattle.primary_protocol.specs.Steps.{replied};
ghost use Rattle.primary_protocol.specs.Transitions.{whole_blocks};
ghost use Rattle.primary.specs.State.{node};

use crate::Primary;
use blocks::{Done, Refusal, Store};
use bytes::Bytes;
use link::{FrameIn, FrameOut};

impl<O: FrameOut + Drop, I: FrameIn + Drop, S: Store + Drop> Primary<O, I, S> {
    /// Accepts a write of whole blocks, from block `first` on, and returns its number; the bytes are shared. If a
    /// connection is established, the write goes to its stream, otherwise its blocks are marked.
    ///
    /// `BadRange` (1) if it is not 1 to 32 whole blocks inside the device and inside one extent; `NotConnected` (12)
    /// if no connection is established and the bitmap records no generation; `JournalFull` (5) if 1,048,576 writes
    /// were accepted; `LogFull` (3) if `backlog` writes are unreleased; `Conflict` (2) if an open write overlaps it,
    /// or the block under way does, whose number here is 0; `ActivityFull` (4) if its extent is not active and cannot
    /// become so; `StreamFull` (6) if the stream has 4,294,967,288 items or more; else `NoMemory` (7) if there is no
    /// room for it and all that it may need later.
    pub fn submit(&mut self, first: u64, bytes: &Bytes) -> Result<(u64, Done), Refusal>
        ensures step { NodeSteps (Submits first (whole_blocks bytes.now) (is_out_of_memory result)) (node self.old) (replied (λ accepted. reply.Ok accepted.1) result) (node self.new) }
        ensures number { IfOk result (λ accepted. accepted.1.what ≡ what.Write accepted.0) }
        ensures rest { self.new ≡ record self.old { core = self.new.core } }
    {
        let done = self.core.submit(first, bytes)?;
        Ok((self.core.accepted(), done))
    }
}
