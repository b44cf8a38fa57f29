//! Both ends of a direction.
ghost use Rattle.std.specs.Prelude.{ℕ, ◌≡◌, Some, slice_get};
ghost use Rattle.std.specs.List.{AllByRecursion};
ghost use Rattle.packets.specs.Cutting.{IsCut};
ghost use Rattle.model.specs.Stream.{IsBeginning};
ghost use Rattle.endpoint.specs.Joined.{PacketsFollow, PacketsFollowEverywhere, BeginsPushed};
ghost use Rattle.endpoint.specs.PacketReceiver.{TakenBefore};
ghost use Rattle.endpoint.specs.PacketSender.{PushedBefore};

use crate::{PacketReceiver, PacketSender};
use link::{FrameIn, FrameOut};

/// Proof hint: if the frames taken are a prefix of the frames sent, then what was taken is packets, and these are a
/// prefix of the packets pushed: on the current connection, and on each earlier one. The frames sent are whole, as
/// a reader cuts them from a byte stream. It does nothing.
pub fn joined<O: FrameOut, I: FrameIn>(outgoing: &PacketSender<O>, incoming: &PacketReceiver<I>)
    ensures present { PacketsFollow outgoing.now incoming.now }
    ensures past { (i j : ℕ) (taken : TakenBefore) (pushed : PushedBefore)
        → slice_get incoming.now.past i ≡ Some taken → slice_get outgoing.now.past j ≡ Some pushed
        → IsBeginning taken.frames pushed.frames → BeginsPushed taken.taken pushed.pushed }
    // The same by connection numbers, whichever connections the two ends had.
    ensures everywhere { PacketsFollowEverywhere outgoing.now incoming.now }
    ensures whole { AllByRecursion IsCut outgoing.now.frames }
    ensures whole_before { (j : ℕ) (pushed : PushedBefore)
        → slice_get outgoing.now.past j ≡ Some pushed → AllByRecursion IsCut pushed.frames }
{
    let _ = &outgoing.end;
    let _ = &incoming.end;
}
