//! What was told, once the node is out of its lock.
ghost use Rattle.std.specs.Prelude.{◌≡◌};
ghost use mathlib.Core.List.{IsPrefix};
ghost use Rattle.told_nodes.specs.Told.{AllStand, IsTold};

use blocks::Store;
use link::{FrameIn, FrameOut};
use primary::Primary;
use session_nodes::Beginning;
use told::{ToldLog, ToldSeen};

/// All that was told stands in one history, which the node has, and what a caller has seen is a beginning of it. It does nothing when
/// the program runs.
pub fn stand<B: Beginning, O: FrameOut + Drop, I: FrameIn + Drop, S: Store + Drop>(
    primary: &Primary<O, I, S>,
    log: &mut ToldLog<B>,
    seen: &ToldSeen<B>,
)
    requires { IsTold B.opening log.old.log primary.now }
    ensures same { log.new ≡ log.old }
    ensures seen { IsPrefix seen.now.log log.old.log }
    ensures stand { AllStand B.opening log.old.log primary.now }
{
    log.knows(seen);
}
