//! Decoding of a whole stream at once.
ghost use Rattle.std.specs.Prelude.{◌≡◌, ℕ, List, map, Option, IfOk, IfErr};
ghost use Rattle.std.specs.List.{flat_map};
ghost use Rattle.blocks.specs.declared.refusal.Refusal.{Refusal};
ghost use Rattle.blocks.specs.declared.refusal.Refusal.TheVariants.{NoMemory};
ghost use Rattle.packets.specs.declared.packet.Packet.{Packet};
ghost use Rattle.packets.specs.Stream.{Decodes, Reads};

use crate::{Decoder, Packet};
use blocks::Refusal;
use std::alloc::Global;

/// The result of decoding a stream.
#[derive(Debug, Drop)]
pub struct Transcript {
    /// The packets of its frames, up to the first fault.
    pub packets: Vec<Packet>,
    /// The fault of the frame after them, 20 to 23, if there is one.
    pub fault: Option<Refusal>,
}

/// Decodes the stream that comes in these pieces. It does not matter how it was cut. `NoMemory` (7) is the only
/// refusal.
pub fn decode_all(alloc: Global, pieces: &[&[u8]]) -> Result<Transcript, Refusal>
    // The stream is the encodings of the packets, and then less than a frame, or a frame with the fault.
    ensures read { IfOk result (λ t. Decodes (map (λ piece. piece.now) pieces.now) t.packets.items t.fault) }
    // It decodes to nothing else, however it was cut.
    ensures only { IfOk result (λ t. (others : List (List ℕ)) (packets : List Packet) (fault : Option Refusal)
        → flat_map (λ piece. piece) others ≡ flat_map (λ piece. piece.now) pieces.now
        → Decodes others packets fault → (t.packets.items ≡ packets) × (t.fault ≡ fault)) }
    ensures refused { IfErr result (λ e. e ≡ NoMemory) }
{
    read_pieces(alloc, pieces)
}

/// Decodes the pieces one after another, up to the first fault.
fn read_pieces(alloc: Global, pieces: &[&[u8]]) -> Result<Transcript, Refusal>
    ensures read { IfOk result (λ t. (rest : List ℕ)
        × Reads (flat_map (λ piece. piece.now) pieces.now) t.packets.items rest t.fault) }
    ensures refused { IfErr result (λ e. e ≡ NoMemory) }
{
    let mut decoder = Decoder::new(alloc);
    let mut packets = Vec::new(alloc);
    for piece in pieces {
        match decoder.feed(piece, &mut packets) {
            Ok(()) => {}
            Err(Refusal::NoMemory) => return Err(Refusal::NoMemory),
            Err(fault) => {
                return Ok(Transcript {
                    packets,
                    fault: Some(fault),
                });
            }
        }
    }
    Ok(Transcript {
        packets,
        fault: None,
    })
}
