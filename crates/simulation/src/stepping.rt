//! What the events do.
use crate::broken::{Broken, Stopped};
use crate::contents::Contents;
use crate::disk::Disk;
use crate::event::{Event, Step};
use crate::mirror::Mirror;
use crate::nodes::{PrimaryNode, SecondaryNode};
use crate::settling::settle;
use crate::world::World;
use crate::{checking, ending, flushing, housekeeping, reconnecting, starting, trouble};
use blocks::{BLOCK_BYTES, Decision, Done, Refusal, What};
use bytes::Bytes;
use std::alloc::{AllocError, Global};

/// Blocks that a write has at most: a node accepts no more.
const MOST_BLOCKS: u64 = 64;

/// Does an event, and checks all that is promised.
pub(crate) fn step<P: PrimaryNode, S: SecondaryNode>(
    mirror: &mut Mirror<P, S>,
    event: Event,
) -> Result<(), Stopped> {
    mirror.world.now = mirror.world.now.saturating_add(1);
    mirror.world.counts.note(event.word())?;
    perform(mirror, event)?;
    settle(mirror)?;
    checking::check(mirror)
}

// Does an event.
fn perform<P: PrimaryNode, S: SecondaryNode>(
    mirror: &mut Mirror<P, S>,
    event: Event,
) -> Result<(), Stopped> {
    match event {
        Event::Write { first, count } => write(mirror, first, count),
        Event::Read { first, count } => read(mirror, first, count),
        Event::Flush => flushing::flush(mirror),
        Event::Steps { step, times } => steps(mirror, step, times),
        Event::Work { rounds } => ending::work(mirror, rounds),
        Event::Reconnect => {
            reconnecting::reconnect(mirror);
            Ok(())
        }
        Event::House { most } => housekeeping::keep_house(mirror, most),
        Event::Start => starting::start(mirror),
        Event::End => ending::end(mirror),
        _ => trouble::befall(mirror, event),
    }
}

// Submits a write.
fn write<P: PrimaryNode, S: SecondaryNode>(
    mirror: &mut Mirror<P, S>,
    first: u64,
    count: u64,
) -> Result<(), Stopped> {
    let id = mirror.world.promises.last().saturating_add(1);
    let bytes = bytes_of_write(mirror.world.alloc, id, first, count)?;
    match submit(mirror, first, &bytes) {
        Some(connection) => accept(&mut mirror.world, first, count, connection),
        None => Ok(()),
    }
}

// Returns the bytes of a write.
fn bytes_of_write(alloc: Global, id: u64, first: u64, count: u64) -> Result<Bytes, AllocError> {
    let mut bytes = vec![in alloc; 0u8; count.min(MOST_BLOCKS) as usize * BLOCK_BYTES]?;
    let mut block = first;
    for room in bytes.chunks_mut(BLOCK_BYTES) {
        Contents::of_write(id, block).fill(room);
        block = block.saturating_add(1);
    }
    Bytes::copy_from_slice(alloc, bytes.as_slice())
}

// Has the primary accept a write. Returns the connection that takes it, 0 if none does; `None` if there is no primary, or it refuses.
fn submit<P: PrimaryNode, S: SecondaryNode>(
    mirror: &mut Mirror<P, S>,
    first: u64,
    bytes: &Bytes,
) -> Option<u32> {
    let Some(primary) = &mut mirror.primary else {
        return None;
    };
    if !primary.submit(first, bytes) {
        return None;
    }
    let state = primary.state();
    Some(if state.is_established {
        state.connection
    } else {
        0
    })
}

// Notes that a write was accepted.
fn accept(world: &mut World, first: u64, count: u64, connection: u32) -> Result<(), Stopped> {
    world.promises.accept(first, count, world.now, connection)?;
    world.counts.note("writes that were accepted")?;
    Ok(())
}

// Reads blocks, which have to be what the local disk has.
fn read<P: PrimaryNode, S: SecondaryNode>(
    mirror: &mut Mirror<P, S>,
    first: u64,
    count: u64,
) -> Result<(), Stopped> {
    let read = match &mut mirror.primary {
        Some(primary) => primary.read(first, count),
        None => None,
    };
    match (read, mirror.world.local.disk.try_borrow()) {
        (Some(bytes), Ok(disk)) => check_read(&disk, first, bytes.as_slice()),
        _ => Ok(()),
    }
}

// Checks that bytes are what the disk has.
fn check_read(disk: &Disk, first: u64, bytes: &[u8]) -> Result<(), Stopped> {
    let mut block = first;
    for bytes in bytes.chunks(BLOCK_BYTES) {
        if Contents::of_bytes(bytes) != disk.cached(block) {
            return Err(Broken::Misread { block }.into());
        }
        block = block.saturating_add(1);
    }
    Ok(())
}

// Has a node do a step, up to `times` times.
fn steps<P: PrimaryNode, S: SecondaryNode>(
    mirror: &mut Mirror<P, S>,
    step: Step,
    times: u64,
) -> Result<(), Stopped> {
    for _ in 0..times {
        if !step_once(mirror, step)? {
            break;
        }
    }
    Ok(())
}

/// Has a node do a step. Returns whether there was one.
pub(crate) fn step_once<P: PrimaryNode, S: SecondaryNode>(
    mirror: &mut Mirror<P, S>,
    step: Step,
) -> Result<bool, Stopped> {
    match do_step(mirror, step) {
        Ok(done) => {
            note(&mut mirror.world, step, &done)?;
            Ok(true)
        }
        Err(refusal) if is_fault(refusal) => Err(Broken::Refused(refusal).into()),
        Err(_) => Ok(false),
    }
}

// Has the node do a step whose step it is.
fn do_step<P: PrimaryNode, S: SecondaryNode>(
    mirror: &mut Mirror<P, S>,
    step: Step,
) -> Result<Done, Refusal> {
    match step {
        Step::Send | Step::AckIn | Step::WriteNext | Step::ResyncNext => match &mut mirror.primary {
            Some(primary) => primary.step(step),
            None => Err(Refusal::NothingThere),
        },
        Step::Receive | Step::ApplyNext | Step::AckOut => match &mut mirror.secondary {
            Some(secondary) => secondary.step(step),
            None => Err(Refusal::NothingThere),
        },
    }
}

// Whether a node cannot have this reason, whatever happens to its disk and its file.
fn is_fault(refusal: Refusal) -> bool {
    matches!(refusal.number(), 16..=17 | 20..=25 | 30..=31 | 34..=35)
}

// Notes what a step did that does not come often.
fn note(world: &mut World, step: Step, done: &Done) -> Result<(), Stopped> {
    if done.synced && step == Step::AckIn {
        world.counts.note("copies that ended")?;
    }
    let word = match done.what {
        What::Decided(Decision::NoSync) => "connections over disks that agree",
        What::Decided(Decision::BitmapSync) => "connections that copy what is marked",
        What::Decided(Decision::FullSync) => "connections that copy all",
        _ => return Ok(()),
    };
    world.counts.note(word)?;
    Ok(())
}
