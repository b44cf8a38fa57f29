//! Opening a connection.
ghost use Rattle.std.specs.Prelude.{◌≡◌};
ghost use Rattle.blocks.specs.declared.outcome.Reply.TheVariants as reply;
ghost use Rattle.endpoint.specs.Calls.{is_out_of_memory};
ghost use Rattle.model.specs.Pair.{OpenEvent};
ghost use Rattle.pair.specs.State.{state};
ghost use Rattle.pair_protocol.specs.State.{IsPairStep};
ghost use Rattle.primary_protocol.specs.Steps.{replied};

use crate::Pair;
use blocks::{Done, Refusal, What};
use link::PlainLink;

impl Pair {
    // Opens both ends with a new link, or neither.
    pub(crate) fn open(&mut self, sync: u64, loss: u64) -> Result<Done, Refusal>
        ensures step { IsPairStep (OpenEvent sync loss) (is_out_of_memory result) (state self.old) (replied reply.Ok result) (state self.new) }
    {
        if self.secondary.is_open() || !self.secondary.is_drained() {
            return Err(Refusal::NotDrained);
        }
        self.primary.may_open(sync, loss)?;
        let link = PlainLink::new(self.alloc, self.primary.settings().link)?;
        let (ours, theirs) = (link.primary, link.secondary);
        self.primary.open(ours.outward, ours.inward, sync, loss)?;
        self.secondary.open(theirs.outward, theirs.inward)?;
        Ok(Done::about(What::Nothing))
    }
}
