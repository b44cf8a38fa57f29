//! Tests of ends under the name of their direction.
ghost use Rattle.std.specs.Prelude.{◌≡◌, None};
ghost use Rattle.packets.specs.Cutting.{IsCut};
ghost use Rattle.thread_link.specs.Names.{row_of};

use crate::ruled::connections::barrier;
use crate::ruled::ends::carries;
use crate::vectors::BARRIER;
use packets::Frame;
use std::marker::Brand;
use std::process::Abort;
use std::sync::Wait;
use thread_link::{Named, RuledIn, RuledOut, join_ends, ruled};

/// Sends the frame of barrier 1 through two ends of one name, and joins them by that name.
fn goes_through<N: Named, R: Wait + Drop>(
    rt: &impl Abort,
    frame: Frame,
    outward: RuledOut<R>,
    inward: RuledIn<R>,
)
    requires whole { IsCut frame }
    requires outward { outward.row ≡ row_of N.link N.direction }
    requires inward { inward.row ≡ row_of N.link N.direction }
    requires unused { outward.partly ≡ None }
{
    let mut outward = outward.named::<N>();
    let mut inward = inward.named::<N>();
    carries(rt, &mut outward, &mut inward, frame, &BARRIER);
    let _ = join_ends(outward.into_end(), inward.into_end());
}

#[test]
fn ends_of_one_name_are_joined(rt: HostRuntime) {
    let (outward, inward) = ruled(&rt, rt.alloc(), 1).expect(&rt, "there is a link");
    let frame = barrier(&rt, 1);
    goes_through::<Brand, &HostRuntime>(&rt, frame, outward, inward);
}
