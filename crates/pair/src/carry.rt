//! Receiving a frame: the direction's queue is lent to the receiving node for the one call.
ghost use Rattle.std.specs.Prelude.{◌≡◌};
ghost use Rattle.blocks.specs.declared.outcome.Reply.TheVariants as reply;
ghost use Rattle.endpoint.specs.Calls.{is_out_of_memory};
ghost use Rattle.model.specs.Pair.{AckInEvent, ReceiveEvent};
ghost use Rattle.pair.specs.State.{state};
ghost use Rattle.pair_protocol.specs.Carried.{PacketsFollowIn};
ghost use Rattle.pair_protocol.specs.State.{IsPairStep};
ghost use Rattle.primary_protocol.specs.Steps.{replied};
ghost use Rattle.secondary_protocol.specs.Steps as from_secondary;

use crate::{Pair, PrimaryNode, SecondaryNode};
use blocks::{Done, Refusal};
use endpoint::joined;

impl Pair {
    // Has the secondary take the next frame of the primary.
    pub(crate) fn receive(&mut self) -> Result<Done, Refusal>
        ensures step { IsPairStep ReceiveEvent (is_out_of_memory result) (state self.old) (from_secondary.replied (λ done. done) result) (state self.new) }
    {
        let Some(queue) = self.primary.give_outward() else {
            return self.secondary.receive();
        };
        self.secondary.lay_inward(queue);
        let done = self.secondary.receive();
        let Some(queue) = self.secondary.give_inward() else {
            return done;
        };
        self.primary.lay_outward(queue);
        packets_follow_there(&self.primary, &self.secondary);
        done
    }

    // Has the primary take the next acknowledgement of the secondary.
    pub(crate) fn ack_in(&mut self) -> Result<Done, Refusal>
        ensures step { IsPairStep AckInEvent (is_out_of_memory result) (state self.old) (replied reply.Ok result) (state self.new) }
    {
        let Some(queue) = self.secondary.give_outward() else {
            return self.primary.ack_in();
        };
        self.primary.lay_inward(queue);
        let done = self.primary.ack_in();
        let Some(queue) = self.primary.give_inward() else {
            return done;
        };
        self.secondary.lay_outward(queue);
        packets_follow_back(&self.primary, &self.secondary);
        done
    }
}

/// Proof hint for the way to the secondary: if the frames taken are a prefix of those sent, so are their packets.
/// It does nothing.
pub(crate) fn packets_follow_there(primary: &PrimaryNode, secondary: &SecondaryNode)
    ensures { PacketsFollowIn (record { out = primary.now.outgoing; inn = secondary.now.incoming }) }
{
    if let (Some(outgoing), Some(incoming)) = (primary.outgoing(), secondary.incoming()) {
        joined(outgoing, incoming);
    }
}

/// Proof hint: the same for the way back to the primary. It does nothing.
pub(crate) fn packets_follow_back(primary: &PrimaryNode, secondary: &SecondaryNode)
    ensures { PacketsFollowIn (record { out = secondary.now.outgoing; inn = primary.now.incoming }) }
{
    if let (Some(outgoing), Some(incoming)) = (secondary.outgoing(), primary.incoming()) {
        joined(outgoing, incoming);
    }
}
