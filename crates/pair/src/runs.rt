//! Running a list of events.
ghost use Rattle.std.specs.Prelude.{◌≡◌, false, length, map, All, IfOk, IfErr};
ghost use Rattle.blocks.specs.declared.refusal.Refusal.TheVariants.{NoMemory};
ghost use Rattle.model.specs.Headline.{CoversDifferences, HoldsEarlierEpochs, IsGrounded, KeepsPromises, MarksDifferences, StaysClosed, StaysClosedToo};
ghost use Rattle.model.specs.Headline.{TakesABeginning};
ghost use Rattle.model.specs.Pair.{PairHistory, run};
ghost use Rattle.model.specs.WriteOrder.{IsUnharmed, KeepsWriteOrder};
ghost use Rattle.pair.specs.Events.{event_of};
ghost use Rattle.pair.specs.Replies.{tells_protocol_error};
ghost use Rattle.pair.specs.State.{state};
ghost use Rattle.pair_protocol.specs.State.{PairHas, WasHonest, answered};

use crate::{Event, Pair};
use blocks::{Refusal, Reply};
use std::alloc::Global;

/// Takes a pair through the events, in order, and returns the reply to each.
///
/// Makes room for all replies first: `NoMemory` (7) if there is none; then nothing has happened, and the pair is
/// handed back. The reply to an event whose memory was refused is 7, and the event changes nothing.
pub fn run(
    alloc: Global,
    pair: Pair,
    events: &[Event],
) -> Result<(Pair, Vec<Reply>), (Pair, Refusal)>
    // Each event has its reply.
    ensures each { IfOk result (λ r. length r.1.items ≡ length events.now) }
    // Each event's reply is the model's, from whichever history the pair had.
    ensures replies { IfOk result (λ r. (h : PairHistory) → PairHas (state pair) h
        → r.1.items ≡ (run (answered (map event_of events.now) r.1.items) h).0) }
    // No reply tells a protocol error: each node takes only what the other one sent.
    ensures honest_link { IfOk result (λ r. All (λ one. tells_protocol_error one ≡ false) r.1.items) }
    // The pair has the history that the events lead to.
    ensures history { IfOk result (λ r. (h : PairHistory) → PairHas (state pair) h
        → PairHas (state r.0) (run (answered (map event_of events.now) r.1.items) h).1) }
    // If the identifiers of its opening were honest, they still are: no event changes how the pair began.
    ensures honest { IfOk result (λ r. (h : PairHistory) → PairHas (state pair) h → WasHonest h
        → WasHonest (run (answered (map event_of events.now) r.1.items) h).1) }
    // If the history was grounded, it still is.
    ensures grounded { IfOk result (λ r. (h : PairHistory) → PairHas (state pair) h → IsGrounded h.primary h.secondary
        → IsGrounded (run (answered (map event_of events.now) r.1.items) h).1.primary (run (answered (map event_of events.now) r.1.items) h).1.secondary) }
    // On each connection, what the secondary took is a prefix of the lawful stream that the primary sent, each
    // write once.
    ensures beginning { IfOk result (λ r. (h : PairHistory) → PairHas (state r.0) h
        → TakesABeginning h.primary h.secondary) }
    // Nothing is sent or taken after an end is closed.
    ensures closed { IfOk result (λ r. (h : PairHistory) → PairHas (state pair) h
        → StaysClosed h.primary (run (answered (map event_of events.now) r.1.items) h).1.primary
        × StaysClosedToo h.secondary (run (answered (map event_of events.now) r.1.items) h).1.secondary) }
    // The secondary's disk holds every write of earlier epochs and part of one.
    ensures epochs { IfOk result (λ r. (h : PairHistory) → PairHas (state r.0) h → HoldsEarlierEpochs h.secondary) }
    // Every write that was completed over the link has what its protocol promises.
    ensures promises { IfOk result (λ r. (h : PairHistory) → PairHas (state r.0) h
        → KeepsPromises h.primary h.secondary) }
    // While no connection is established, every block on which the disks differ is marked.
    ensures marks { IfOk result (λ r. (h : PairHistory) → PairHas (state r.0) h → WasHonest h
        → MarksDifferences h.primary h.secondary) }
    // At every moment such a block is marked or under an unreleased write, and the unreleased writes lie in at most
    // as many extents as there are slots.
    ensures cover { IfOk result (λ r. (h : PairHistory) → PairHas (state r.0) h → WasHonest h
        → CoversDifferences h.primary h.secondary) }
    // The disk of a secondary that reports itself consistent has an ordered set of the writes, with all whole
    // epochs.
    ensures order { IfOk result (λ r. (h : PairHistory) → PairHas (state r.0) h → WasHonest h
        → IsUnharmed h.primary h.secondary → KeepsWriteOrder h.primary h.secondary) }
    // A refusal of the whole call leaves the pair unchanged.
    ensures refused { IfErr result (λ e. (e.0 ≡ pair) × (e.1 ≡ NoMemory)) }
{
    let mut pair = pair;
    let mut replies = match Vec::with_capacity(alloc, events.len()) {
        Ok(replies) => replies,
        Err(_) => return Err((pair, Refusal::NoMemory)),
    };
    for event in events {
        let reply = pair.step(event);
        replies.push_reserved(reply);
    }
    Ok((pair, replies))
}
