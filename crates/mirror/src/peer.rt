//! Steps of the secondary.
ghost use Rattle.std.specs.Prelude.{IfErr};
ghost use Rattle.mirror.specs.Runs.{IsFailure, PeerRuns};

use crate::working::went;
use blocks::{Refusal, Store};
use link::{FrameIn, FrameOut};
use secondary::Secondary;

/// Does what the secondary can do once: it takes a frame, its disk does an item, it sends an acknowledgement. Returns
/// whether it did anything.
pub(crate) fn peer_turn<O: FrameOut + Drop, I: FrameIn + Drop, S: Store + Drop>(
    peer: &mut Secondary<O, I, S>,
) -> Result<bool, Refusal>
    ensures runs { PeerRuns peer.old peer.new }
    ensures refused { IfErr result IsFailure }
{
    let taken = take(peer)?;
    let applied = apply(peer)?;
    let sent = send(peer)?;
    Ok(taken || applied || sent)
}

// Takes the next frame.
fn take<O: FrameOut + Drop, I: FrameIn + Drop, S: Store + Drop>(
    peer: &mut Secondary<O, I, S>,
) -> Result<bool, Refusal>
    ensures runs { PeerRuns peer.old peer.new }
    ensures refused { IfErr result IsFailure }
{
    went(peer.receive())
}

// Has the disk do the next item.
fn apply<O: FrameOut + Drop, I: FrameIn + Drop, S: Store + Drop>(
    peer: &mut Secondary<O, I, S>,
) -> Result<bool, Refusal>
    ensures runs { PeerRuns peer.old peer.new }
    ensures refused { IfErr result IsFailure }
{
    match peer.next() {
        Ok(place) => went(peer.peer(place)),
        Err(_) => Ok(false),
    }
}

// Sends the next acknowledgement.
fn send<O: FrameOut + Drop, I: FrameIn + Drop, S: Store + Drop>(
    peer: &mut Secondary<O, I, S>,
) -> Result<bool, Refusal>
    ensures runs { PeerRuns peer.old peer.new }
    ensures refused { IfErr result IsFailure }
{
    went(peer.ack_out())
}
