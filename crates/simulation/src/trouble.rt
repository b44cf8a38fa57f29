//! What troubles a node or the link.
use crate::broken::Stopped;
use crate::event::{Event, Node};
use crate::machine::Machine;
use crate::mirror::Mirror;
use crate::nodes::{PrimaryNode, SecondaryNode};
use crate::random::Random;
use crate::settling::settle;
use crate::world::World;
use std::alloc::AllocError;

/// Has an event befall that is a node's trouble, or the link's.
pub(crate) fn befall<P: PrimaryNode, S: SecondaryNode>(
    mirror: &mut Mirror<P, S>,
    event: Event,
) -> Result<(), Stopped> {
    match event {
        Event::Close(node) => mirror.close(node),
        Event::CutPower { node, seed } => return cut_power(mirror, node, seed),
        _ => arm(&mirror.world, event),
    }
    Ok(())
}

// Breaks the link, stops a node, or has it fail or stop at a later call.
fn arm(world: &World, event: Event) {
    match event {
        Event::Cut { there, back } => world.wire.cut(there, back),
        Event::FailDisk {
            node,
            after,
            count,
            part,
        } => world
            .machine(node)
            .process
            .fail_disk_after(after, count, part),
        Event::FailFile { node, after, count } => {
            world
                .machine(node)
                .process
                .fail_file_after(after, count, after)
        }
        Event::Stop { node, after, part } => world.machine(node).process.stop_after(after, part),
        Event::Kill(node) => world.machine(node).process.stop(),
        _ => {}
    }
}

// Cuts the power of a node's machine.
fn cut_power<P: PrimaryNode, S: SecondaryNode>(
    mirror: &mut Mirror<P, S>,
    node: Node,
    seed: u64,
) -> Result<(), Stopped> {
    mirror.world.machine(node).process.stop();
    settle(mirror)?;
    darken(&mut mirror.world, node, seed)
}

// Has the machine of a node lose power and start again, and notes what is promised no more.
fn darken(world: &mut World, node: Node, seed: u64) -> Result<(), Stopped> {
    let mut random = Random::new(seed);
    if node == Node::Primary || world.plan.is_one_machine {
        restart(&mut world.local, &mut random)?;
        world.promises.cut_local_power();
    }
    if node == Node::Secondary || world.plan.is_one_machine {
        restart(&mut world.peer, &mut random)?;
        world.promises.cut_peer_power();
    }
    Ok(())
}

// Has a machine lose power, and start again.
fn restart(machine: &mut Machine, random: &mut Random) -> Result<(), AllocError> {
    darken_disk(machine, random)?;
    darken_file(machine, random)?;
    machine.restart_system();
    Ok(())
}

// Has the disk of a machine lose power.
fn darken_disk(machine: &Machine, random: &mut Random) -> Result<(), AllocError> {
    match machine.disk.try_borrow_mut() {
        Ok(mut disk) => disk.cut_power(random),
        Err(_) => Ok(()),
    }
}

// Has the metadata file of a machine lose power.
fn darken_file(machine: &Machine, random: &mut Random) -> Result<(), AllocError> {
    match machine.file.try_borrow_mut() {
        Ok(mut file) => file.cut_power(random),
        Err(_) => Ok(()),
    }
}
