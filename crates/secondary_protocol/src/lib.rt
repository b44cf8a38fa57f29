//! A secondary's state in plain values, whose transitions are the model's steps. It has no code of a node.
#![tactic(auto)]

ghost use Rattle.secondary_protocol.specs.Steps.{FreshIsOpening, OpensAgree, ReceivesAgree, AppliesAgree, FaultsAgree, PushesAgree, ClosesAgree, StatesSay};

/// States laws by its contract, and does nothing. On whichever history leaves the state, each transition returns what
/// the model's step replies, and leaves what that step leaves: for any packet or fault taken, and any blocks that a
/// fault of the disk leaves new.
pub fn transitions_are_steps()
    ensures fresh { FreshIsOpening }
    ensures opens { OpensAgree }
    ensures receives { ReceivesAgree }
    ensures applies { AppliesAgree }
    ensures faults { FaultsAgree }
    ensures pushes { PushesAgree }
    ensures closes { ClosesAgree }
{}

/// States a law by its contract, and does nothing. A state and its history say the same.
pub fn states_say()
    ensures { StatesSay }
{}
