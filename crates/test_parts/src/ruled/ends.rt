//! Calls of the two ends of a link, with the results that they must have.
ghost use Rattle.std.specs.Prelude.{◌≡◌, None, IfSome};
ghost use Rattle.packets.specs.Cutting.{IsCut};

use crate::vectors::has_bytes;
use blocks::Refusal;
use link::{FrameIn, FrameOut};
use packets::Frame;
use std::process::Abort;

/// Checks that the end accepts a frame.
pub(crate) fn accepts<O: FrameOut>(rt: &impl Abort, end: &mut O, frame: Frame)
    requires whole { IsCut frame }
    requires again { IfSome (O.state end.old).partly (λ begun. begun ≡ frame) }
    ensures partly { (O.state end.new).partly ≡ None }
    ensures number { (O.state end.new).number ≡ (O.state end.old).number }
{
    assert!(rt; end.offer(frame).is_ok());
}

/// Checks that the end is full and hands the frame back.
pub(crate) fn hands_back<O: FrameOut>(rt: &impl Abort, end: &mut O, frame: Frame) -> Frame
    requires whole { IsCut frame }
    requires again { IfSome (O.state end.old).partly (λ begun. begun ≡ frame) }
    ensures frame { result ≡ frame }
    ensures partly { IfSome (O.state end.new).partly (λ begun. begun ≡ frame) }
    ensures number { (O.state end.new).number ≡ (O.state end.old).number }
{
    let offered = end.offer(frame).expect_err(rt, "there is no room");
    assert_eq!(rt; offered.refusal().number(), 11);
    offered.frame
}

/// Makes the end ready, and takes a frame from it.
pub(crate) fn next<I: FrameIn>(end: &mut I) -> Result<Frame, Refusal>
    ensures { (I.state end.new).number ≡ (I.state end.old).number }
{
    end.ready()?;
    end.take()
}

/// Checks that the next frame has these bytes.
pub(crate) fn gives<I: FrameIn>(rt: &impl Abort, end: &mut I, bytes: &[u8])
    ensures { (I.state end.new).number ≡ (I.state end.old).number }
{
    let frame = next(end).expect(rt, "there is a frame");
    assert!(rt; has_bytes(&frame, bytes));
}

/// Checks that there is no frame.
pub(crate) fn gives_none<I: FrameIn>(rt: &impl Abort, end: &mut I)
    ensures { (I.state end.new).number ≡ (I.state end.old).number }
{
    assert!(rt; matches!(next(end), Err(Refusal::NothingThere)));
}

/// Checks that a link in which there is no frame carries this one, and then has none again.
pub(crate) fn carries<O: FrameOut, I: FrameIn>(
    rt: &impl Abort,
    outward: &mut O,
    inward: &mut I,
    frame: Frame,
    bytes: &[u8],
)
    requires whole { IsCut frame }
    requires again { IfSome (O.state outward.old).partly (λ begun. begun ≡ frame) }
{
    gives_none(rt, inward);
    accepts(rt, outward, frame);
    gives(rt, inward, bytes);
    gives_none(rt, inward);
}
