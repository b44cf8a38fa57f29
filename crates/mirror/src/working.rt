//! Running both nodes until nothing remains to do.
ghost use Rattle.std.specs.Prelude.{◌≡◌, Ok, Err, true, false, None, IfErr};
ghost use Rattle.blocks.specs.Numbered.{is_busy};
ghost use Rattle.blocks.specs.declared.refusal.Refusal.{Refusal};
ghost use Rattle.blocks.specs.declared.refusal.Refusal.TheVariants.{NotConnected};
ghost use Rattle.mirror.specs.Runs.{HaveNothingLeft, IsFailure, IsNoFailure, LocalRuns, PeerRuns};

use crate::local::local_turn;
use crate::peer::peer_turn;
use blocks::{Done, Refusal, Store};
use link::{FrameIn, FrameOut};
use primary::Primary;
use secondary::Secondary;

/// Has both nodes and their disks do what they can, turn by turn, until neither can do anything, `turns` turns at
/// most. In a turn each disk does a write or an item, each node sends a frame and takes one, and a resync copies a
/// block. Returns whether both came to rest: then neither disk has anything to do, and no block can be copied. If not,
/// it may be called again. A hello takes some five turns, a write or a block of a resync a few.
///
/// If the nodes are closed, their disks do what they have to do. The link has to deliver its frames by itself, as
/// `thread_link::RuledLink` does: a `link::PlainLink` needs a caller that carries its queue from one end to the
/// other.
///
/// A step that has nothing to do now, or waits for another one, is no failure. Every other refusal ends the work
/// and is returned: `NoMemory` (7), `ReadFault` (14), and the protocol errors, which have closed an end. A disk
/// that fails a write or an item is no refusal: the node closes its end, or marks the blocks, and the work goes on.
pub fn work<O, I, P, J, S, T>(
    local: &mut Primary<O, I, S>,
    peer: &mut Secondary<P, J, T>,
    turns: u32,
) -> Result<bool, Refusal>
where
    O: FrameOut + Drop,
    I: FrameIn + Drop,
    P: FrameOut + Drop,
    J: FrameIn + Drop,
    S: Store + Drop,
    T: Store + Drop,
    ensures local { LocalRuns local.old local.new }
    ensures peer { PeerRuns peer.old peer.new }
    ensures rest { result ≡ Ok true → HaveNothingLeft local.new peer.new }
    ensures refused { IfErr result (λ e. (is_busy e ≡ false) × (e ≡ NotConnected → ⊥)) }
{
    for _ in 0..turns {
        let local_went = local_turn(local)?;
        let peer_went = peer_turn(peer)?;
        if !local_went && !peer_went {
            return Ok(local.next_local().is_none() && peer.next().is_err());
        }
    }
    Ok(false)
}

/// Returns whether a step was done: it was not if it has nothing to do now, or waits for another one.
pub(crate) fn went(step: Result<Done, Refusal>) -> Result<bool, Refusal>
    ensures waits { result ≡ Ok false → (e : Refusal) × (step ≡ Err e) × IsNoFailure e }
    ensures refused { IfErr result IsFailure }
{
    match step {
        Ok(_) => Ok(true),
        Err(refusal) if refusal.is_busy() || refusal == Refusal::NotConnected => Ok(false),
        Err(refusal) => Err(refusal),
    }
}
