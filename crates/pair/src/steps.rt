//! The events of one node, and the step of any event.
ghost use Rattle.std.specs.Prelude.{◌≡◌, false};
ghost use Rattle.blocks.specs.declared.outcome.Reply.TheVariants as reply;
ghost use Rattle.endpoint.specs.Calls as link;
ghost use Rattle.model.specs.Headline.{CoversDifferences, HoldsEarlierEpochs, IsGrounded, KeepsPromises, MarksDifferences, StaysClosed, StaysClosedToo};
ghost use Rattle.model.specs.Headline.{TakesABeginning};
ghost use Rattle.model.specs.Pair.{AckOutEvent, ClosePrimaryEvent, CloseSecondaryEvent, LocalEvent, LocalFaultEvent, PairHistory, PeerEvent, PeerFaultEvent};
ghost use Rattle.model.specs.Pair.{ResyncEvent, ResyncFaultEvent, SendEvent, SubmitEvent, step};
ghost use Rattle.model.specs.WriteOrder.{IsUnharmed, KeepsWriteOrder};
ghost use Rattle.pair.specs.Events.{event_of};
ghost use Rattle.pair.specs.Replies.{tells_protocol_error};
ghost use Rattle.pair.specs.State.{state};
ghost use Rattle.pair_protocol.specs.State.{IsPair, IsPairStep, PairHas, WasHonest, is_out_of_memory};
ghost use Rattle.primary_protocol.specs.Steps.{replied};
ghost use Rattle.secondary_protocol.specs.Steps as from_secondary;
ghost use Rattle.secondary_protocol.specs.Steps.{plainly};
ghost use Rattle.primary_protocol.specs.Transitions.{whole_blocks};

use crate::carry::{packets_follow_back, packets_follow_there};
use crate::{Event, Pair};
use blocks::{Done, Refusal, Reply, What};
use bytes::Bytes;

impl Pair {
    // Has the primary accept a write.
    fn submit(&mut self, first: u64, contents: &Bytes) -> Result<(u64, Done), Refusal>
        ensures step { IsPairStep (SubmitEvent first (whole_blocks contents.now)) (link.is_out_of_memory result) (state self.old) (replied (λ accepted. reply.Ok accepted.1) result) (state self.new) }
    {
        self.primary.submit(first, contents)
    }

    // Has the primary's disk do a write.
    fn local(&mut self, number: u64) -> Result<Done, Refusal>
        ensures step { IsPairStep (LocalEvent number) (link.is_out_of_memory result) (state self.old) (replied reply.Ok result) (state self.new) }
    {
        self.primary.local(number)
    }

    // Has the primary's disk fail a write.
    fn local_fault(&mut self, number: u64, kept: u64) -> Result<Done, Refusal>
        ensures step { IsPairStep (LocalFaultEvent number kept) (link.is_out_of_memory result) (state self.old) (replied reply.Ok result) (state self.new) }
    {
        self.primary.local_fault(number, kept)
    }

    // Has the primary send a frame.
    fn send(&mut self) -> Result<Done, Refusal>
        ensures step { IsPairStep SendEvent (link.is_out_of_memory result) (state self.old) (replied reply.Ok result) (state self.new) }
    {
        let done = self.primary.send();
        packets_follow_there(&self.primary, &self.secondary);
        done
    }

    // Has the secondary's disk do an item.
    fn peer(&mut self, place: u32) -> Result<Done, Refusal>
        ensures step { IsPairStep (PeerEvent place) (link.is_out_of_memory result) (state self.old) (from_secondary.replied (λ done. done) result) (state self.new) }
    {
        self.secondary.peer(place)
    }

    // Has the secondary's disk fail an item.
    fn peer_fault(&mut self, place: u32, kept: u64) -> Result<Done, Refusal>
        ensures step { IsPairStep (PeerFaultEvent place kept) (link.is_out_of_memory result) (state self.old) (from_secondary.replied (λ done. done) result) (state self.new) }
    {
        self.secondary.peer_fault(place, kept)
    }

    // Has the secondary send an acknowledgement.
    fn ack_out(&mut self) -> Result<Done, Refusal>
        ensures step { IsPairStep AckOutEvent (link.is_out_of_memory result) (state self.old) (from_secondary.replied (λ done. done) result) (state self.new) }
    {
        let done = self.secondary.ack_out();
        packets_follow_back(&self.primary, &self.secondary);
        done
    }

    // Has the primary copy a block.
    fn resync(&mut self) -> Result<Done, Refusal>
        ensures step { IsPairStep ResyncEvent (link.is_out_of_memory result) (state self.old) (replied reply.Ok result) (state self.new) }
    {
        self.primary.resync_next()
    }

    // Has the primary's disk fail the read of a block.
    fn resync_fault(&mut self) -> Result<Done, Refusal>
        ensures step { IsPairStep ResyncFaultEvent (link.is_out_of_memory result) (state self.old) (replied reply.Ok result) (state self.new) }
    {
        self.primary.resync_fault()
    }

    // Closes the primary's end.
    fn close_primary(&mut self) -> Result<u32, Refusal>
        ensures step { IsPairStep ClosePrimaryEvent (link.is_out_of_memory result) (state self.old) (replied reply.Closed result) (state self.new) }
    {
        self.primary.close()
    }

    // Closes the secondary's end.
    fn close_secondary(&mut self) -> Result<(), Refusal>
        ensures step { IsPairStep CloseSecondaryEvent (link.is_out_of_memory result) (state self.old) (from_secondary.replied plainly result) (state self.new) }
    {
        self.secondary.close()
    }

    // Proof hint: a pair has a history. It does nothing.
    fn has_history(&self)
        ensures { IsPair (state self.now) }
    {
        let _ = &self.primary;
    }

    /// Runs one event, and returns the reply to it: those of the model's step, from whichever history the pair had.
    /// Memory was refused if the reply is 7.
    pub fn step(&mut self, event: &Event) -> Reply
        ensures step { IsPairStep (event_of event.now) (is_out_of_memory result) (state self.old) result (state self.new) }
        // The reply tells no protocol error: each node takes only what the other one sent.
        ensures honest_link { tells_protocol_error result ≡ false }
        // If the identifiers of its opening were honest, they still are.
        ensures honest { (h : PairHistory) → PairHas (state self.old) h → WasHonest h
            → WasHonest (step (event_of event.now) (is_out_of_memory result) h).1 }
        // If the history was grounded, it still is.
        ensures grounded { (h : PairHistory) → PairHas (state self.old) h → IsGrounded h.primary h.secondary
            → IsGrounded (step (event_of event.now) (is_out_of_memory result) h).1.primary (step (event_of event.now) (is_out_of_memory result) h).1.secondary }
        // Nothing is sent or taken after an end is closed.
        ensures closed { (h : PairHistory) → PairHas (state self.old) h
            → StaysClosed h.primary (step (event_of event.now) (is_out_of_memory result) h).1.primary
            × StaysClosedToo h.secondary (step (event_of event.now) (is_out_of_memory result) h).1.secondary }
        // On each connection, what the secondary took is a prefix of the lawful stream that the primary sent.
        ensures beginning { (h : PairHistory) → PairHas (state self.new) h → TakesABeginning h.primary h.secondary }
        // The secondary's disk holds every write of earlier epochs and part of one.
        ensures epochs { (h : PairHistory) → PairHas (state self.new) h → HoldsEarlierEpochs h.secondary }
        // Every write that was completed over the link has what its protocol promises.
        ensures promises { (h : PairHistory) → PairHas (state self.new) h → KeepsPromises h.primary h.secondary }
        // While no connection is established, every block on which the disks differ is marked.
        ensures marks { (h : PairHistory) → PairHas (state self.new) h → WasHonest h
            → MarksDifferences h.primary h.secondary }
        // At every moment such a block is marked or under an unreleased write, and the unreleased writes lie in at
        // most as many extents as there are slots.
        ensures cover { (h : PairHistory) → PairHas (state self.new) h → WasHonest h
            → CoversDifferences h.primary h.secondary }
        // The disk of a secondary that reports itself consistent has an ordered set of the writes, with all whole
        // epochs.
        ensures order { (h : PairHistory) → PairHas (state self.new) h → WasHonest h
            → IsUnharmed h.primary h.secondary → KeepsWriteOrder h.primary h.secondary }
    {
        self.has_history();
        let outcome = match event {
            Event::Open { sync, loss } => self.open(*sync, *loss),
            Event::Submit { first, contents } => match self.submit(*first, contents) {
                Ok((_, done)) => Ok(done),
                Err(refusal) => Err(refusal),
            },
            Event::Local(number) => self.local(*number),
            Event::LocalFault(number, kept) => self.local_fault(*number, *kept),
            Event::Send => self.send(),
            Event::Receive => self.receive(),
            Event::Peer(place) => self.peer(*place),
            Event::PeerFault(place, kept) => self.peer_fault(*place, *kept),
            Event::AckOut => self.ack_out(),
            Event::AckIn => self.ack_in(),
            Event::Resync => self.resync(),
            Event::ResyncFault => self.resync_fault(),
            Event::ClosePrimary => {
                return match self.close_primary() {
                    Ok(completed) => Reply::Closed(completed),
                    Err(refusal) => Reply::Refused(refusal),
                };
            }
            Event::CloseSecondary => match self.close_secondary() {
                Ok(()) => Ok(Done::about(What::Nothing)),
                Err(refusal) => Err(refusal),
            },
        };
        match outcome {
            Ok(done) => Reply::Ok(done),
            Err(refusal) => Reply::Refused(refusal),
        }
    }
}
