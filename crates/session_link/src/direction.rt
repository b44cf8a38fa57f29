//! One direction of a session's link, once one owner has both of its ends.
ghost use Rattle.std.specs.Prelude.{ℕ, ◌≡◌};
ghost use Rattle.endpoint.specs.Joined.{BeginsPushed, pushed_at, taken_at};

use endpoint::{PacketReceiver, PacketSender, joined};
use std::sync::Wait;
use thread_link::{Named, NamedIn, NamedOut, join_ends};

/// Returns both ends of a direction unchanged. On each connection, by its number, what was taken is packets, and they
/// begin the packets that were pushed. Takes no memory.
pub fn join_direction<R: Wait, N: Named>(
    outgoing: PacketSender<NamedOut<R, N>>,
    incoming: PacketReceiver<NamedIn<R, N>>,
) -> (PacketSender<NamedOut<R, N>>, PacketReceiver<NamedIn<R, N>>)
    ensures outgoing { result.0 ≡ outgoing }
    ensures incoming { result.1 ≡ incoming }
    ensures joined { (number : ℕ) → BeginsPushed (taken_at number incoming) (pushed_at number outgoing) }
{
    let (sent, count) = outgoing.into_end();
    let (taken, hello) = incoming.into_end();
    let (sent, taken) = join_ends(sent.into_end(), taken.into_end());
    let outgoing = PacketSender::over(sent.named::<N>(), count);
    let incoming = PacketReceiver::over(taken.named::<N>(), hello);
    joined(&outgoing, &incoming);
    (outgoing, incoming)
}
