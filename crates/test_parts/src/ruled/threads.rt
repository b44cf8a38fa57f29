//! Tests of the two ends in two threads.
ghost use Rattle.std.specs.Prelude.{◌≡◌, ◌<◌, None, IfOk};
ghost use Rattle.packets.specs.Cutting.{IsCut};
ghost use Rattle.packets.specs.Spelling.{IsSpellable};

use crate::ruled::connections::spelled;
use crate::ruled::ends::next;
use blocks::{Block, Refusal};
use bytes::Bytes;
use link::{FrameIn, FrameOut};
use packets::{Acknowledgement, Frame, Packet, read};
use std::alloc::Global;
use std::sync::Wait;
use std::thread::{self, Threads};
use thread_link::ruled;

/// Frames of a run.
const FRAMES: u32 = 20_000;

/// Makes a write of this many blocks, filled with a byte of its place.
fn data(alloc: Global, place: u32, blocks: usize) -> Result<Packet, Refusal>
    requires some { 0 < blocks }
    requires few { blocks < 33 }
    ensures { IfOk result (λ p. IsSpellable p) }
{
    let contents = Vec::from_elem(alloc, (place % 256) as u8, 4096 * blocks)?;
    Ok(Packet::Data {
        first: Block(u64::from(place)),
        number: 1,
        place,
        contents: Bytes::from_vec(contents)?,
    })
}

/// Makes the packet at a place of the run: of mixed size, and with its place in it.
fn packet_at(alloc: Global, place: u32) -> Result<Packet, Refusal>
    ensures { IfOk result (λ p. IsSpellable p) }
{
    match place % 64 {
        0 => data(alloc, place, 32),
        1..16 => data(alloc, place, 1),
        16..32 => Ok(Packet::Barrier { number: place }),
        _ => Ok(Packet::WriteAck(Acknowledgement {
            first: Block(2),
            number: 1,
            count: 1,
            place,
        })),
    }
}

/// Offers a frame until it is accepted.
fn send<R: Wait, O: FrameOut>(rt: &R, end: &mut O, frame: Frame)
    requires whole { IsCut frame }
    requires none { (O.state end.old).partly ≡ None }
    ensures { (O.state end.new).partly ≡ None }
{
    let mut frame = frame;
    for _ in rt.forever() {
        match end.offer(frame) {
            Ok(()) => return,
            Err(offered) => frame = offered.frame,
        }
        thread::yield_now();
    }
    unreachable!()
}

/// Makes the frame at a place of the run.
fn frame_at(alloc: Global, place: u32) -> Result<Frame, Refusal>
    ensures { IfOk result (λ frame. IsCut frame) }
{
    spelled(&packet_at(alloc, place)?)
}

/// Sends the frames of the run.
fn send_all<R: Wait, O: FrameOut>(rt: &R, alloc: Global, end: &mut O) -> Result<(), Refusal>
    requires { (O.state end.old).partly ≡ None }
{
    for place in 0..FRAMES {
        send(rt, end, frame_at(alloc, place)?);
    }
    Ok(())
}

/// Asks for a frame until there is one.
fn receive<R: Wait, I: FrameIn>(rt: &R, end: &mut I) -> Result<Frame, Refusal> {
    for _ in rt.forever() {
        match next(end) {
            Err(Refusal::NothingThere) => thread::yield_now(),
            answer => return answer,
        }
    }
    unreachable!()
}

/// Returns whether a frame is that of the run at this place.
fn is_at(alloc: Global, frame: Frame, place: u32) -> Result<bool, Refusal> {
    Ok(read(frame, None)? == packet_at(alloc, place)?)
}

/// Receives all frames. Returns how many are those of the run, each at its place.
fn receive_all<R: Wait, I: FrameIn>(rt: &R, alloc: Global, end: &mut I) -> Result<u32, Refusal> {
    let mut same: u32 = 0;
    for place in 0..FRAMES {
        if is_at(alloc, receive(rt, end)?, place)? {
            same = same.saturating_add(1);
        }
    }
    Ok(same)
}

/// Sends all frames in one thread and receives them in another. Returns how many were those of the run.
fn in_two_threads<R: Threads + Wait + Sync, O: FrameOut + Send, I: FrameIn>(
    rt: &R,
    alloc: Global,
    outward: &mut O,
    inward: &mut I,
) -> Result<u32, Refusal>
    requires { (O.state outward.old).partly ≡ None }
{
    let (sent, same) = thread::join(
        rt,
        || -> Result<(), Refusal>
            requires { (O.state outward.now).partly ≡ None }
        { send_all(rt, alloc, outward) },
        || receive_all(rt, alloc, inward),
    );
    sent.and(same)
}

#[test]
fn all_frames_are_taken_in_order(rt: HostRuntime) {
    // A row for one frame.
    let (mut outward, mut inward) = ruled(&rt, rt.alloc(), 1).expect(&rt, "there is a link");
    let same = in_two_threads(&rt, rt.alloc(), &mut outward, &mut inward);
    assert_eq!(rt; same, Ok(FRAMES));
}
