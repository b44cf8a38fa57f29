//! What is checked after each event, by no part of the product.
use crate::broken::{Broken, Stopped};
use crate::contents::{Contents, block_of, writer_of};
use crate::disk::Disk;
use crate::event::Node;
use crate::file::TornFile;
use crate::mirror::Mirror;
use crate::nodes::{PrimaryNode, SecondaryNode};
use crate::promises::{Promised, Promises};
use crate::saved::{Saved, has_block};
use crate::world::World;

/// Checks all that is promised, if a disk or a file has changed, or something else is promised.
pub(crate) fn check<P: PrimaryNode, S: SecondaryNode>(
    mirror: &mut Mirror<P, S>,
) -> Result<(), Stopped> {
    let is_kept = mirror.is_kept();
    let world = &mut mirror.world;
    let changes = changes(world);
    if changes == world.checked {
        return Ok(());
    }
    world.checked = changes;
    if check_all(world, is_kept)? {
        world.is_order_lost = false;
    }
    Ok(())
}

// Checks all that is promised, where the primary is kept by its metadata or not. Returns whether both disks and their platters have the same.
fn check_all(world: &World, is_kept: bool) -> Result<bool, Broken> {
    match (world.local.disk.try_borrow(), world.peer.disk.try_borrow()) {
        (Ok(local), Ok(peer)) => check_over(world, &local, &peer, is_kept),
        _ => Ok(false),
    }
}

// Checks all that is promised of these disks and of the metadata files.
fn check_over(world: &World, local: &Disk, peer: &Disk, is_kept: bool) -> Result<bool, Broken> {
    check_disks(&world.promises, local, peer)?;
    check_files(world, local, peer, is_kept)?;
    Ok(are_settled(&world.promises, local, peer))
}

// Checks what is promised of the metadata files, and what they promise.
fn check_files(world: &World, local: &Disk, peer: &Disk, is_kept: bool) -> Result<(), Broken> {
    match (world.local.file.try_borrow(), world.peer.file.try_borrow()) {
        (Ok(own), Ok(other)) => {
            check_saved(world, local, peer, &own, Saved::of_file(&other), is_kept)
        }
        _ => Ok(()),
    }
}

// Checks what is promised of the primary's metadata, and what the secondary's promises.
fn check_saved(
    world: &World,
    local: &Disk,
    peer: &Disk,
    own: &TornFile,
    peers: Saved,
    is_kept: bool,
) -> Result<(), Broken> {
    check_known(&world.promises, local, peer, own, peers, is_kept)?;
    if peers.is_consistent && peers.boot == world.peer.boot && !world.is_order_lost {
        check_order(&world.promises, peer)?;
    }
    Ok(())
}

// Returns a number that grows with each change of a disk, of a file or of what is promised.
fn changes(world: &World) -> u64 {
    let mut changes = world.promises.changes();
    for machine in [&world.local, &world.peer] {
        if let (Ok(disk), Ok(file)) = (machine.disk.try_borrow(), machine.file.try_borrow()) {
            changes = changes
                .saturating_add(disk.changes())
                .saturating_add(file.changes());
        }
    }
    changes
}

/// Checks that both disks are alike.
pub(crate) fn check_alike(world: &World) -> Result<(), Stopped> {
    let (Ok(local), Ok(peer)) = (world.local.disk.try_borrow(), world.peer.disk.try_borrow()) else {
        return Ok(());
    };
    match first_unlike(&world.promises, &local, &peer) {
        Some(block) => Err(Broken::Unlike { block }.into()),
        None => Ok(()),
    }
}

// Returns whether both disks and their platters have the same.
fn are_settled(promises: &Promises, local: &Disk, peer: &Disk) -> bool {
    promises
        .blocks()
        .keys()
        .all(|block| is_settled(*block, local, peer))
}

// Returns the first block in which the disks differ.
fn first_unlike(promises: &Promises, local: &Disk, peer: &Disk) -> Option<u64> {
    for (block, _) in promises.blocks().iter() {
        if local.cached(*block) != peer.cached(*block) {
            return Some(*block);
        }
    }
    None
}

// Checks that both disks and their platters have what is promised.
fn check_disks(promises: &Promises, local: &Disk, peer: &Disk) -> Result<(), Broken> {
    for (block, promised) in promises.blocks().iter() {
        check_block(
            promised,
            Node::Primary,
            *block,
            local.cached(*block),
            promised.local,
        )?;
        check_block(
            promised,
            Node::Secondary,
            *block,
            peer.cached(*block),
            promised.peer,
        )?;
        check_platter(
            Node::Primary,
            *block,
            local.platter(*block),
            promised.local_stable,
        )?;
        check_platter(
            Node::Secondary,
            *block,
            peer.platter(*block),
            promised.peer_stable,
        )?;
    }
    Ok(())
}

// Checks that a block has in each sector this write or a newer one, and nothing else.
fn check_block(
    promised: &Promised,
    node: Node,
    block: u64,
    contents: Contents,
    write: u64,
) -> Result<(), Broken> {
    let mut before = 0u64;
    for mark in contents.marks {
        if mark == 0 || mark == before {
            continue;
        }
        before = mark;
        if block_of(mark) != block || !promised.writes.contains(&writer_of(mark)) {
            return Err(Broken::Strange { node, block });
        }
    }
    if has_all(contents, write) {
        Ok(())
    } else {
        Err(Broken::Lacks { node, block, write })
    }
}

// Checks that a block has in each sector of the platter this write or a newer one.
fn check_platter(node: Node, block: u64, contents: Contents, write: u64) -> Result<(), Broken> {
    if has_all(contents, write) {
        Ok(())
    } else {
        Err(Broken::Unflushed { node, block, write })
    }
}

// Returns whether each sector is of this write or of a newer one.
fn has_all(contents: Contents, write: u64) -> bool {
    contents.marks.iter().all(|mark| writer_of(*mark) >= write)
}

// Checks that the primary's metadata has each block in which the disks differ, or may after a power cut, and that the identifiers of a primary
// that is kept do not say that the disks agree: else the next start turns them. A peer whose identifiers say nothing to the primary is
// copied whole.
fn check_known(
    promises: &Promises,
    local: &Disk,
    peer: &Disk,
    own: &TornFile,
    peers: Saved,
    is_kept: bool,
) -> Result<(), Broken> {
    let saved = Saved::of_file(own);
    let is_same = saved.current == peers.current;
    if peers.current == 0 || (!is_same && saved.bitmap != peers.current) {
        return Ok(());
    }
    for (block, _) in promises.blocks().iter() {
        if is_settled(*block, local, peer) {
            continue;
        }
        if is_same && is_kept {
            return Err(Broken::Unturned { block: *block });
        }
        if !has_block(own, *block) {
            return Err(Broken::Unknown { block: *block });
        }
    }
    Ok(())
}

// Returns whether both disks have the same in a block, and on their platters too.
fn is_settled(block: u64, local: &Disk, peer: &Disk) -> bool {
    local.cached(block) == peer.cached(block) && !local.is_waiting(block) && !peer.is_waiting(block)
}

// Checks that the peer's disk has each write that was completed before the newest one that it has was submitted, or a newer one over it.
fn check_order(promises: &Promises, peer: &Disk) -> Result<(), Broken> {
    let newer = newest_of(promises, peer);
    let Some(write) = promises.write(newer) else {
        return Ok(());
    };
    for (block, promised) in promises.blocks().iter() {
        let wanted = promises.completed_before(promised, write.submitted);
        if !has_all(peer.cached(*block), wanted) {
            return Err(Broken::Unordered {
                block: *block,
                write: wanted,
                newer,
            });
        }
    }
    Ok(())
}

// Returns the newest write that made a sector of the disk.
fn newest_of(promises: &Promises, disk: &Disk) -> u64 {
    let mut newest = 0u64;
    for (block, _) in promises.blocks().iter() {
        for mark in disk.cached(*block).marks {
            newest = newest.max(writer_of(mark));
        }
    }
    newest
}
