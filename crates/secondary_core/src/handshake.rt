//! The primary's hello.
ghost use Rattle.std.specs.Prelude.{◌≡◌, OnErr, OnOk};
ghost use Rattle.handshakes.specs.Handshake.{judged};
ghost use Rattle.handshakes.specs.Hello.{advanced};

use blocks::{Command, Refusal, Settings};
use handshakes::Handshake;
use packets::Packet;

/// Takes the next frame of the primary's hello, and returns its command. The identifiers in UUIDS decide nothing
/// here. `OtherProtocol` (34), `OtherSize` (35) and `BadCommand` (21) come as `Handshake::judge` returns them; then
/// nothing changes.
pub(crate) fn take_hello_frame(
    handshake: &mut Handshake,
    packet: &Packet,
    settings: &Settings,
) -> Result<Command, Refusal>
    ensures judged { result ≡ judged handshake.old.hello_received packet.now settings.now }
    ensures heard { OnOk result (handshake.new ≡ record handshake.old { hello_received = advanced handshake.old.hello_received }) }
    ensures unchanged { OnErr result (handshake.new ≡ handshake.old) }
{
    let command = handshake.judge(packet, settings)?;
    handshake.frame_received();
    Ok(command)
}
