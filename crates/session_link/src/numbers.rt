//! The numbers of the connections of both nodes.
ghost use Rattle.std.specs.Prelude.{◌<◌, ◌≤◌, ◌≡◌, None, OnErr, OnOk, IfErr};
ghost use Rattle.blocks.specs.declared.refusal.Refusal.TheVariants.{NotDrained};
ghost use Rattle.session_nodes.specs.Primaries.{PrimaryIsHad};

use blocks::{Refusal, Store};
use link::{FrameIn, FrameOut};
use primary::Primary;
use secondary::Secondary;

/// Checks that no connection of the secondary has a number above the primary's last one. `NotDrained` (36) if one has,
/// which no session brings about.
pub fn check_numbers<
    O: FrameOut + Drop,
    I: FrameIn + Drop,
    S: Store + Drop,
    P: FrameOut + Drop,
    J: FrameIn + Drop,
    T: Store + Drop,
>(primary: &Primary<O, I, S>, secondary: &Secondary<P, J, T>) -> Result<(), Refusal>
    requires { PrimaryIsHad None primary.now }
    ensures numbered { OnOk result (secondary.now.core.number ≤ primary.now.core.connections) }
    ensures above { OnErr result (primary.now.core.connections < secondary.now.core.number) }
    ensures refused { IfErr result (λ refusal. refusal ≡ NotDrained) }
{
    if secondary.connection_number() > primary.connection_number() {
        return Err(Refusal::NotDrained);
    }
    Ok(())
}
