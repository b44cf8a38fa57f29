//! Tests of frames over one connection after another.
ghost use Rattle.std.specs.Prelude.{◌≡◌, ◌<◌, None, IfOk};
ghost use Rattle.packets.specs.Cutting.{IsCut};
ghost use Rattle.packets.specs.Spelling.{IsSpellable};

use crate::ruled::ends::{accepts, carries, gives, gives_none, hands_back};
use crate::ruled::kinds::write;
use crate::vectors::BARRIER;
use blocks::{Block, Refusal};
use bytes::Bytes;
use link::{FrameIn, FrameOut};
use packets::{Frame, Packet, encode};
use std::alloc::Global;
use std::process::Abort;
use thread_link::ruled;

/// Encodes a packet. The frame is whole.
pub(crate) fn spelled(packet: &Packet) -> Result<Frame, Refusal>
    requires { IsSpellable packet.now }
    ensures { IfOk result (λ frame. IsCut frame) }
{
    encode(packet)
}

/// Makes the frame of a write of blocks 2 to 4.
fn three_blocks_in(alloc: Global) -> Result<Frame, Refusal>
    ensures { IfOk result (λ frame. IsCut frame) }
{
    spelled(&Packet::Data {
        first: Block(2),
        number: 1,
        place: 0,
        contents: Bytes::copy_from_slice(alloc, &[0xAA; 12_288])?,
    })
}

/// Makes the same frame, if there is memory for it.
pub(crate) fn three_blocks(rt: &impl Abort, alloc: Global) -> Frame
    ensures { IsCut result }
{
    three_blocks_in(alloc).expect(rt, "a write has a frame")
}

/// Makes the frame of a barrier.
pub(crate) fn barrier(rt: &impl Abort, number: u32) -> Frame
    ensures { IsCut result }
{
    spelled(&Packet::Barrier { number }).expect(rt, "a barrier has a frame")
}

/// Checks that a full link hands a frame back, and accepts it once the frame before it is taken.
fn goes_on<O: FrameOut, I: FrameIn>(rt: &impl Abort, alloc: Global, outward: &mut O, inward: &mut I)
    requires { (O.state outward.old).partly ≡ None }
{
    accepts(rt, outward, barrier(rt, 1));
    let frame = hands_back(rt, outward, three_blocks(rt, alloc));
    gives(rt, inward, &BARRIER);
    carries(rt, outward, inward, frame, &write(rt, alloc));
}

#[test]
fn a_full_link_is_gone_on_with(rt: HostRuntime) {
    let (mut outward, mut inward) = ruled(&rt, rt.alloc(), 1).expect(&rt, "there is a link");
    goes_on(&rt, rt.alloc(), &mut outward, &mut inward);
}

/// Ends a connection whose last frame was handed back, and checks that the next one has frames of its own.
fn begins_anew<O: FrameOut, I: FrameIn>(
    rt: &impl Abort,
    alloc: Global,
    outward: &mut O,
    inward: &mut I,
)
    requires partly { (O.state outward.old).partly ≡ None }
    requires sending { (O.state outward.old).number ≡ 1 }
    requires taking { (I.state inward.old).number ≡ 1 }
{
    accepts(rt, outward, barrier(rt, 1));
    let _ = hands_back(rt, outward, three_blocks(rt, alloc));
    gives(rt, inward, &BARRIER);
    outward.restart(2);
    accepts(rt, outward, barrier(rt, 1));
    // The taking end keeps the frame of the second connection until that begins.
    gives_none(rt, inward);
    gives_none(rt, inward);
    inward.restart(2);
    gives(rt, inward, &BARRIER);
    gives_none(rt, inward);
}

#[test]
fn a_connection_ends_with_a_frame_that_was_handed_back(rt: HostRuntime) {
    let (mut outward, mut inward) = ruled(&rt, rt.alloc(), 1).expect(&rt, "there is a link");
    begins_anew(&rt, rt.alloc(), &mut outward, &mut inward);
}

/// Puts frames of three connections into a link, and checks that the taking end takes the last one's.
fn drops_earlier<O: FrameOut, I: FrameIn>(
    rt: &impl Abort,
    alloc: Global,
    outward: &mut O,
    inward: &mut I,
)
    requires partly { (O.state outward.old).partly ≡ None }
    requires sending { (O.state outward.old).number ≡ 1 }
    requires taking { (I.state inward.old).number ≡ 1 }
{
    accepts(rt, outward, three_blocks(rt, alloc));
    outward.restart(2);
    accepts(rt, outward, barrier(rt, 2));
    outward.restart(5);
    accepts(rt, outward, barrier(rt, 1));
    inward.restart(5);
    gives(rt, inward, &BARRIER);
    gives_none(rt, inward);
}

#[test]
fn frames_of_a_connection_that_is_over_are_dropped(rt: HostRuntime) {
    let (mut outward, mut inward) = ruled(&rt, rt.alloc(), 3).expect(&rt, "there is a link");
    drops_earlier(&rt, rt.alloc(), &mut outward, &mut inward);
}
