//! Tests of a direction of a link in one thread: what is offered comes out, when it is full, and what a new connection
//! drops.
ghost use Rattle.std.specs.Prelude.{◌≡◌, IfOk};
ghost use Rattle.link.specs.Directions.{InState, IsDirection, IsUnused};

use crate::vectors::{BARRIER, PROTOCOL_C, has_bytes};
use blocks::Refusal;
use link::{FrameIn, FrameOut, PlainIn, PlainLink, PlainOut};
use packets::Frame;
use std::alloc::Global;
use std::process::Abort;

/// Makes both ends of a direction that holds one frame.
pub(crate) fn direction(alloc: Global) -> Result<(PlainOut, PlainIn), Refusal>
    ensures unused { IfOk result (λ ends. IsUnused ends.0 ends.1 1) }
    ensures direction { IfOk result (λ ends. IsDirection ends.0 ends.1) }
{
    let PlainLink { primary, secondary } = PlainLink::new(alloc, 1)?;
    Ok((primary.outward, secondary.inward))
}

// Lends the direction's queue to the taking end for one take.
fn carry(sender: &mut PlainOut, taker: &mut PlainIn) -> Result<Frame, Refusal>
    requires { IsDirection sender.old taker.old }
    ensures { IsDirection sender.new taker.new }
{
    taker.ready()?;
    let Some(queue) = sender.give_queue() else {
        return Err(Refusal::NothingThere);
    };
    taker.lay_queue(queue);
    let taken = taker.take();
    if let Some(queue) = taker.give_queue() {
        sender.lay_queue(queue);
    }
    taken
}

// Checks that the taking end gets a frame of these bytes, or finds nothing if there are none.
fn check_brought(rt: &impl Abort, sender: &mut PlainOut, taker: &mut PlainIn, bytes: &'static [u8])
    requires { IsDirection sender.old taker.old }
    ensures { IsDirection sender.new taker.new }
{
    let is_right = match carry(sender, taker) {
        Ok(frame) => has_bytes(&frame, bytes),
        Err(refusal) => bytes.is_empty() && refusal == Refusal::NothingThere,
    };
    assert!(rt; is_right, "not {bytes:?}");
}

// Checks that the sending end accepts the frame.
fn check_accepted(rt: &impl Abort, sender: &mut PlainOut, frame: Frame)
    ensures number { sender.new.number ≡ sender.old.number }
    ensures direction { (taker : InState) → IsDirection sender.old taker → IsDirection sender.new taker }
{
    let is_accepted = sender.offer(frame).is_ok();
    assert!(rt; is_accepted);
}

#[test]
fn a_link_for_one_frame_carries_two(rt: HostRuntime) {
    let (mut sender, mut taker) = direction(rt.alloc()).expect(&rt, "a link");
    check_accepted(&rt, &mut sender, Frame::inline(&PROTOCOL_C));
    let second = sender
        .offer(Frame::inline(&BARRIER))
        .expect_err(&rt, "a full link");
    let refused = (second.refusal().number(), taker.take().err());
    assert_eq!(rt; refused, (11, Some(Refusal::NothingThere)));
    check_brought(&rt, &mut sender, &mut taker, &PROTOCOL_C);
    check_accepted(&rt, &mut sender, second.frame);
    check_brought(&rt, &mut sender, &mut taker, &BARRIER);
    check_brought(&rt, &mut sender, &mut taker, &[]);
}

#[test]
fn a_connection_drops_the_frames_of_the_one_before(rt: HostRuntime) {
    let (mut sender, mut taker) = direction(rt.alloc()).expect(&rt, "a link");
    check_accepted(&rt, &mut sender, Frame::inline(&PROTOCOL_C));
    sender.restart(2);
    taker.restart(2);
    check_brought(&rt, &mut sender, &mut taker, &[]);
    check_accepted(&rt, &mut sender, Frame::inline(&BARRIER));
    check_brought(&rt, &mut sender, &mut taker, &BARRIER);
}
