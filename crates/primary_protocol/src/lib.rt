//! A primary's state in plain values, whose transitions are the model's steps. It has no code of a node.
#![tactic(auto)]

ghost use Rattle.primary_protocol.specs.Steps.{FreshIsOpening, OpensAgree, SubmitsAgree, WritesAgree, FaultsAgree, SendsAgree, TakesAgree, ResyncsAgree};
ghost use Rattle.primary_protocol.specs.Steps.{ResyncFaultsAgree, ClosesAgree, ReceiptsAgree};
ghost use Rattle.primary_protocol.specs.Rows.{Synchronous, Asynchronous, Lost, Resynced, AmongWrites, Cleared, RefusedHello};

/// States laws by its contract, and does nothing. On whichever history leaves the state, each transition returns what
/// the model's step replies, and leaves what that step leaves: for any bytes that are given to write, any packet or
/// fault taken, and any blocks that a fault of the disk leaves new.
pub fn transitions_are_steps()
    ensures fresh { FreshIsOpening }
    ensures opens { OpensAgree }
    ensures submits { SubmitsAgree }
    ensures writes { WritesAgree }
    ensures faults { FaultsAgree }
    ensures sends { SendsAgree }
    ensures takes { TakesAgree }
    ensures resyncs { ResyncsAgree }
    ensures resync_faults { ResyncFaultsAgree }
    ensures closes { ClosesAgree }
    ensures receipts { ReceiptsAgree }
{}

/// States worked examples by its contract, and does nothing. They show writes over an established connection under each
/// protocol, and a lost link: what the transitions return for given frames of the peer.
pub fn writes()
    ensures synchronous { Synchronous }
    ensures asynchronous { Asynchronous }
    ensures lost { Lost }
{}

/// States worked examples of resyncs, alone and among writes, and of the marks that a connected write clears.
pub fn resyncs()
    ensures resynced { Resynced }
    ensures among_writes { AmongWrites }
    ensures cleared { Cleared }
{}

/// States worked examples of hellos that are refused.
pub fn hellos()
    ensures refused { RefusedHello }
{}
