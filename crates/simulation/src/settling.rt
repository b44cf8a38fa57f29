//! What came of an event: writes that are completed and released, and nodes whose process has stopped.
use crate::broken::{Broken, Stopped};
use crate::event::{Node, Step};
use crate::mirror::Mirror;
use crate::nodes::{PrimaryNode, SecondaryNode};
use crate::stepping::step_once;
use crate::world::World;
use blocks::{Protocol, Refusal};

/// How many items a secondary's disk has waiting at most.
const MOST_ITEMS: u64 = 8_192;

/// Notes what became of the writes, and takes down what has stopped.
pub(crate) fn settle<P: PrimaryNode, S: SecondaryNode>(
    mirror: &mut Mirror<P, S>,
) -> Result<(), Stopped> {
    collect(mirror)?;
    note_release(mirror);
    mirror.bury();
    Ok(())
}

// Notes which writes were completed or failed.
fn collect<P: PrimaryNode, S: SecondaryNode>(mirror: &mut Mirror<P, S>) -> Result<(), Stopped> {
    let mut place = 0usize;
    for _ in 0..mirror.world.promises.open().len() {
        if !collect_at(mirror, place)? {
            place = place.saturating_add(1);
        }
    }
    Ok(())
}

// Notes what became of the open write at a place of their list. Returns whether it is open no more.
fn collect_at<P: PrimaryNode, S: SecondaryNode>(
    mirror: &mut Mirror<P, S>,
    place: usize,
) -> Result<bool, Stopped> {
    let (Some(primary), Some(id)) = (
        &mut mirror.primary,
        mirror.world.promises.open().get(place).copied(),
    ) else {
        return Ok(false);
    };
    match primary.take_completed(mirror.world.promises.number_in_session(id)) {
        Ok(is_linked) => complete(&mut mirror.world, id, is_linked)?,
        Err(Refusal::LocalFault) => fail(&mut mirror.world, id)?,
        Err(Refusal::NotCompleted) => return Ok(false),
        Err(refusal) => return Err(Broken::Refused(refusal).into()),
    }
    Ok(true)
}

// Notes that a write was completed, after the peer confirmed it or alone.
fn complete(world: &mut World, id: u64, is_linked: bool) -> Result<(), Stopped> {
    let is_on_both = is_linked && world.plan.settings.protocol == Protocol::C;
    world.promises.complete(id, world.now, is_on_both);
    world.counts.note(if is_linked {
        "writes that the peer confirmed"
    } else {
        "writes that were completed alone"
    })?;
    Ok(())
}

// Notes that the local disk failed a write.
fn fail(world: &mut World, id: u64) -> Result<(), Stopped> {
    world.promises.fail(id);
    world.is_order_lost = true;
    world.counts.note("writes that the local disk failed")?;
    Ok(())
}

// Notes which writes are released.
fn note_release<P: PrimaryNode, S: SecondaryNode>(mirror: &mut Mirror<P, S>) {
    if let Some(primary) = &mirror.primary {
        let state = primary.state();
        let connection = if state.is_open { state.connection } else { 0 };
        mirror.world.promises.release(state.released, connection);
    }
}

/// Closes the primary's end, and has its disk do all writes.
pub(crate) fn rest_primary<P: PrimaryNode, S: SecondaryNode>(
    mirror: &mut Mirror<P, S>,
) -> Result<(), Stopped> {
    mirror.close(Node::Primary);
    for _ in 0..mirror.world.promises.open().len().saturating_add(64) {
        if !step_once(mirror, Step::WriteNext)? {
            break;
        }
    }
    settle(mirror)
}

/// Closes the secondary's end, and has its disk do all items.
pub(crate) fn rest_secondary<P: PrimaryNode, S: SecondaryNode>(
    mirror: &mut Mirror<P, S>,
) -> Result<(), Stopped> {
    mirror.close(Node::Secondary);
    for _ in 0..MOST_ITEMS {
        if !step_once(mirror, Step::ApplyNext)? {
            break;
        }
    }
    settle(mirror)
}
