//! How extents leave the metadata, as a server does it.
use crate::broken::Stopped;
use crate::event::Node;
use crate::flushing::sync;
use crate::mirror::Mirror;
use crate::nodes::{PrimaryNode, SecondaryNode};
use crate::world::{House, World};
use std::alloc::AllocError;

/// Goes on by a step: up to `most` extents are prepared, both disks are synced, and what is prepared leaves.
pub(crate) fn keep_house<P: PrimaryNode, S: SecondaryNode>(
    mirror: &mut Mirror<P, S>,
    most: u64,
) -> Result<(), Stopped> {
    let (has_local, has_peer) = (mirror.primary.is_some(), mirror.secondary.is_some());
    mirror.world.house = match mirror.world.house {
        House::Rests => prepare(mirror, most),
        House::Prepared if has_local => sync_before(
            &mirror.world,
            Node::Primary,
            House::LocalSynced,
        )?,
        House::LocalSynced if has_peer => {
            sync_before(&mirror.world, Node::Secondary, House::BothSynced)?
        }
        House::BothSynced => leave(mirror)?,
        _ => House::Rests,
    };
    Ok(())
}

// Prepares up to `most` extents. Returns how far the housekeeping is then.
fn prepare<P: PrimaryNode, S: SecondaryNode>(mirror: &mut Mirror<P, S>, most: u64) -> House {
    match &mut mirror.primary {
        Some(primary) => {
            if primary.prepare_leaving(most) > 0 {
                House::Prepared
            } else {
                House::Rests
            }
        }
        None => House::Rests,
    }
}

// Syncs the disk of a node. Returns how far the housekeeping is then: at `next`, if that was done.
fn sync_before(world: &World, node: Node, next: House) -> Result<House, AllocError> {
    if sync(world, node)? {
        Ok(next)
    } else {
        Ok(House::Rests)
    }
}

// Has what is prepared leave. Returns how far the housekeeping is then.
fn leave<P: PrimaryNode, S: SecondaryNode>(mirror: &mut Mirror<P, S>) -> Result<House, Stopped> {
    let left = match &mut mirror.primary {
        Some(primary) => primary.leave_prepared(),
        None => 0,
    };
    if left > 0 {
        mirror.world.counts.note("rounds in which extents left")?;
    }
    Ok(House::Rests)
}
