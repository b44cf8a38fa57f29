//! How the nodes end as they are told to, and what the end of a simulation wants.
use crate::broken::{Broken, Stopped};
use crate::event::{Event, Node, Step};
use crate::flushing::sync;
use crate::machine::NodeFile;
use crate::mirror::Mirror;
use crate::nodes::{Left, PrimaryNode, SecondaryNode};
use crate::settling::{rest_primary, rest_secondary, settle};
use crate::stepping::{step, step_once};
use crate::{checking, starting};
use bitmap::Bitmap;
use image_metadata::{close_local, close_peer};
use metadata::{CleanEnd, Metadata, StableFile};

/// How often the nodes are started until their disks are alike.
const STARTS: u32 = 12;

/// How long both nodes work at most before they end as they are told to.
const ROUNDS_TO_AN_END: u64 = 400;

/// Steps between two looks.
const STEPS: u32 = 64;

/// What an image is at a clean end.
const IMAGE: CleanEnd = CleanEnd {
    device: 1,
    inode: 1,
    size: 1,
    seconds: 1,
    nanoseconds: 1,
};

/// The order in which nodes that nothing troubles do their steps.
const ROUND: [Step; 7] = [
    Step::WriteNext,
    Step::Send,
    Step::Receive,
    Step::ApplyNext,
    Step::AckOut,
    Step::AckIn,
    Step::ResyncNext,
];

/// Ends both nodes as they are told to: they come to rest, both disks are synced, and the metadata says so, the peer's first.
pub(crate) fn end<P: PrimaryNode, S: SecondaryNode>(
    mirror: &mut Mirror<P, S>,
) -> Result<(), Stopped> {
    if !mirror.are_running() {
        return Ok(());
    }
    work(mirror, ROUNDS_TO_AN_END)?;
    rest_primary(mirror)?;
    rest_secondary(mirror)?;
    if !mirror.are_running() {
        return Ok(());
    }
    let is_synced = sync(&mirror.world, Node::Primary)? && sync(&mirror.world, Node::Secondary)?;
    take_down(mirror, is_synced);
    Ok(())
}

// Takes both nodes down, which are at rest. If their disks were synced, their metadata says so.
fn take_down<P: PrimaryNode, S: SecondaryNode>(mirror: &mut Mirror<P, S>, is_synced: bool) {
    let local = match mirror.primary.take() {
        Some(primary) => primary.into_left(mirror.world.alloc),
        None => None,
    };
    let peer = match mirror.secondary.take() {
        Some(secondary) => secondary.into_left(),
        None => None,
    };
    if let Some(mut local) = local
        && is_synced
    {
        say_ended(&mut local, peer);
    }
    mirror.world.local.process.stop();
    mirror.world.peer.process.stop();
    mirror.world.lose_clients();
}

// Has the metadata of both nodes say that they ended cleanly, if both left theirs whole.
fn say_ended(local: &mut Left, peer: Option<Metadata<NodeFile>>) {
    if let Some(mut peer) = peer {
        say_both_ended(&mut local.metadata, &local.marks, &mut peer);
    }
}

// Has the metadata of both nodes say that they ended cleanly and that just these blocks are marked, the peer's first.
fn say_both_ended<F: StableFile>(
    local: &mut Metadata<F>,
    marks: &Option<Bitmap>,
    peer: &mut Metadata<F>,
) {
    if let Some(marks) = marks
        && close_peer(peer, IMAGE).is_ok()
    {
        let _ = close_local(local, marks, IMAGE);
    }
}

/// Has both nodes do their steps for up to `rounds` rounds, until there are none.
pub(crate) fn work<P: PrimaryNode, S: SecondaryNode>(
    mirror: &mut Mirror<P, S>,
    rounds: u64,
) -> Result<(), Stopped> {
    for _ in 0..rounds {
        let has_worked = round(mirror, 1)?;
        settle(mirror)?;
        if !has_worked {
            break;
        }
    }
    Ok(())
}

// Has both nodes do each of their steps, up to `times` times. Returns whether there was one.
fn round<P: PrimaryNode, S: SecondaryNode>(
    mirror: &mut Mirror<P, S>,
    times: u32,
) -> Result<bool, Stopped> {
    let mut has_worked = false;
    for step in ROUND {
        has_worked |= steps(mirror, step, times)?;
    }
    Ok(has_worked)
}

// Has a node do a step, up to `times` times. Returns whether there was one.
fn steps<P: PrimaryNode, S: SecondaryNode>(
    mirror: &mut Mirror<P, S>,
    step: Step,
    times: u32,
) -> Result<bool, Stopped> {
    let mut has_worked = false;
    for _ in 0..times {
        if !step_once(mirror, step)? {
            break;
        }
        has_worked = true;
    }
    Ok(has_worked)
}

/// Starts everything, with no more trouble, and has it work until the disks are alike; then all that was promised has to hold.
pub(crate) fn finish<P: PrimaryNode, S: SecondaryNode>(
    mirror: &mut Mirror<P, S>,
) -> Result<(), Stopped> {
    for _ in 0..STARTS {
        mirror.world.local.process.disarm();
        mirror.world.peer.process.disarm();
        starting::start(mirror)?;
        checking::check(mirror)?;
        if mirror.are_running() && come_to_rest(mirror)? {
            checking::check_alike(&mirror.world)?;
            return finish_cleanly(mirror);
        }
    }
    Err(Broken::Restless.into())
}

// Has both nodes work until no block is marked. Returns whether none is.
fn come_to_rest<P: PrimaryNode, S: SecondaryNode>(
    mirror: &mut Mirror<P, S>,
) -> Result<bool, Stopped> {
    for _ in 0..mirror
        .world
        .plan
        .blocks()
        .saturating_mul(8)
        .saturating_add(4096)
    {
        if !round(mirror, STEPS)? {
            break;
        }
    }
    settle(mirror)?;
    checking::check(mirror)?;
    Ok(match &mirror.primary {
        Some(primary) => {
            let state = primary.state();
            state.is_established && state.marks == 0
        }
        None => false,
    })
}

// Has a client flush, and both nodes end. Then the next start copies nothing.
fn finish_cleanly<P: PrimaryNode, S: SecondaryNode>(
    mirror: &mut Mirror<P, S>,
) -> Result<(), Stopped> {
    for _ in 0..3 {
        step(mirror, Event::Flush)?;
    }
    step(mirror, Event::End)?;
    starting::start(mirror)?;
    checking::check(mirror)?;
    match &mirror.primary {
        Some(primary) => match primary.state().marks {
            0 => Ok(()),
            blocks => Err(Broken::Remembered { blocks }.into()),
        },
        None => Err(Broken::Restless.into()),
    }
}
