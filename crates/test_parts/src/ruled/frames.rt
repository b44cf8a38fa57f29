//! Tests of frames that go through a link as they are.
ghost use Rattle.std.specs.Prelude.{◌≡◌, None};

use crate::ruled::connections::three_blocks;
use crate::ruled::ends::{accepts, gives_none, next};
use crate::vectors::WRITE_OF_THREE;
use link::{FrameIn, FrameOut};
use std::alloc::Global;
use std::process::Abort;
use thread_link::ruled;

/// Checks that a write comes out of a link with its blocks apart from the bytes before them, as it went in.
fn comes_as_it_is<O: FrameOut, I: FrameIn>(
    rt: &impl Abort,
    alloc: Global,
    outward: &mut O,
    inward: &mut I,
)
    requires { (O.state outward.old).partly ≡ None }
{
    accepts(rt, outward, three_blocks(rt, alloc));
    let frame = next(inward).expect(rt, "there is a frame");
    let (front, blocks) = frame.parts();
    assert!(rt; front == WRITE_OF_THREE.as_slice());
    assert!(rt; blocks == [0xAA; 12_288].as_slice());
    gives_none(rt, inward);
}

#[test]
fn a_write_goes_through_as_it_is(rt: HostRuntime) {
    let (mut outward, mut inward) = ruled(&rt, rt.alloc(), 1).expect(&rt, "there is a link");
    comes_as_it_is(&rt, rt.alloc(), &mut outward, &mut inward);
}
