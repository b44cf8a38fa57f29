//! A pair in plain values, whose steps are the calls of two nodes over a link. It has no code of a node.
#![tactic(auto)]

ghost use Rattle.pair_protocol.specs.Steps.{SendsAreSteps, AnswersAreSteps, ReceivesAreSteps, AcknowledgesAreSteps, RunsHaveClauses};

/// States laws by its contract, and does nothing. On whichever history two nodes have, what one pushes and the other
/// takes is the pair's step: a direction is full if as many frames are on their way as the link holds, and what is
/// taken is the next of what was pushed.
pub fn calls_are_steps()
    ensures sends { SendsAreSteps }
    ensures answers { AnswersAreSteps }
    ensures receives { ReceivesAreSteps }
    ensures acknowledges { AcknowledgesAreSteps }
{}

/// States a law by its contract, and does nothing. Every history that a list of events leads to has the clauses of the
/// headline, the cover and the write order; those of the marks require an opening with honest identifiers. No event
/// makes honest identifiers dishonest, or a grounded history ungrounded.
pub fn runs_have_clauses()
    ensures { RunsHaveClauses }
{}
