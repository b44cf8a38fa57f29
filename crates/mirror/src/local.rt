//! Steps of the primary.
ghost use Rattle.std.specs.Prelude.{◌≡◌, Ok, true, false, IfErr, is_some};
ghost use Rattle.model.specs.Primary.{PrimaryHistory};
ghost use Rattle.model.specs.PrimarySteps.{resync_tests};
ghost use Rattle.model.specs.Refusals.{first_refusal};
ghost use Rattle.primary.specs.State.{node};
ghost use Rattle.primary_protocol.specs.Node.{NodeHas};
ghost use Rattle.mirror.specs.Runs.{IsFailure, LocalRuns};

use crate::working::went;
use blocks::{Refusal, Store};
use link::{FrameIn, FrameOut};
use primary::Primary;

/// Does what the primary can do once: its disk does a write, it sends a frame, it takes one, it copies a block. Returns
/// whether it did anything.
#[tactic(auto, using(crate::proofs::Runs::local_on))]
pub(crate) fn local_turn<O: FrameOut + Drop, I: FrameIn + Drop, S: Store + Drop>(
    local: &mut Primary<O, I, S>,
) -> Result<bool, Refusal>
    ensures runs { LocalRuns local.old local.new }
    ensures copied { result ≡ Ok false → (h : PrimaryHistory) → NodeHas (node local.new) h → is_some (first_refusal (resync_tests h false)) ≡ true }
    ensures refused { IfErr result IsFailure }
{
    let written = write(local)?;
    let sent = send(local)?;
    let taken = take(local)?;
    let copied = copy(local)?;
    Ok(written || sent || taken || copied)
}

// Has the disk do the next write.
fn write<O: FrameOut + Drop, I: FrameIn + Drop, S: Store + Drop>(
    local: &mut Primary<O, I, S>,
) -> Result<bool, Refusal>
    ensures runs { LocalRuns local.old local.new }
    ensures refused { IfErr result IsFailure }
{
    match local.next_local() {
        Some(number) => went(local.local(number)),
        None => Ok(false),
    }
}

// Sends the next frame.
fn send<O: FrameOut + Drop, I: FrameIn + Drop, S: Store + Drop>(
    local: &mut Primary<O, I, S>,
) -> Result<bool, Refusal>
    ensures runs { LocalRuns local.old local.new }
    ensures refused { IfErr result IsFailure }
{
    went(local.send())
}

// Takes the next frame.
fn take<O: FrameOut + Drop, I: FrameIn + Drop, S: Store + Drop>(
    local: &mut Primary<O, I, S>,
) -> Result<bool, Refusal>
    ensures runs { LocalRuns local.old local.new }
    ensures refused { IfErr result IsFailure }
{
    went(local.ack_in())
}

// Copies the next block of a resync.
fn copy<O: FrameOut + Drop, I: FrameIn + Drop, S: Store + Drop>(
    local: &mut Primary<O, I, S>,
) -> Result<bool, Refusal>
    ensures runs { LocalRuns local.old local.new }
    ensures copied { result ≡ Ok false → (h : PrimaryHistory) → NodeHas (node local.new) h → is_some (first_refusal (resync_tests h false)) ≡ true }
    ensures refused { IfErr result IsFailure }
{
    went(local.resync_next())
}
