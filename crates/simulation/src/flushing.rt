//! A flush, as a server does it.
use crate::broken::Stopped;
use crate::event::Node;
use crate::machine::Machine;
use crate::mirror::Mirror;
use crate::nodes::{PrimaryNode, SecondaryNode};
use crate::process::Ending;
use crate::world::{Flushing, World};
use std::alloc::AllocError;

/// Begins a flush, or goes on with it by a step: it waits until each write that was accepted before is released, has the local disk
/// synced, and then the peer's.
pub(crate) fn flush<P: PrimaryNode, S: SecondaryNode>(
    mirror: &mut Mirror<P, S>,
) -> Result<(), Stopped> {
    if mirror.primary.is_none() {
        return Ok(());
    }
    let has_peer = mirror.secondary.is_some();
    let world = &mut mirror.world;
    match world.flushing {
        Flushing::No => world.flushing = Flushing::Waits(world.promises.last()),
        Flushing::Waits(last) => flush_local(world, last)?,
        Flushing::LocalDone(last) => flush_peer(world, last, has_peer)?,
    }
    Ok(())
}

// Has the local disk synced, if the writes up to this one are released.
fn flush_local(world: &mut World, last: u64) -> Result<(), Stopped> {
    if world.promises.released() >= last && sync(world, Node::Primary)? {
        world.promises.flush_local(last);
        world.flushing = Flushing::LocalDone(last);
    }
    Ok(())
}

// Has the peer's disk synced, if its node runs, and ends the flush.
fn flush_peer(world: &mut World, last: u64, has_peer: bool) -> Result<(), Stopped> {
    let is_synced = has_peer && sync(world, Node::Secondary)?;
    if is_synced {
        world.promises.flush_peer(last);
    }
    world.counts.note(if is_synced {
        "flushes of both disks"
    } else {
        "flushes of the local disk alone"
    })?;
    world.flushing = Flushing::No;
    Ok(())
}

/// Syncs the disk of a node. Returns whether that was done.
pub(crate) fn sync(world: &World, node: Node) -> Result<bool, AllocError> {
    let machine = world.machine(node);
    if machine.process.disk_call() != Ending::Done {
        return Ok(false);
    }
    sync_disk(machine)?;
    Ok(true)
}

// Puts the cache of a machine's disk on its platter.
fn sync_disk(machine: &Machine) -> Result<(), AllocError> {
    match machine.disk.try_borrow_mut() {
        Ok(mut disk) => disk.sync(),
        Err(_) => Ok(()),
    }
}
