//! Encoding of packets into frames.
ghost use Rattle.std.specs.Prelude.{◌≡◌, ◌*◌, ◌^◌, ◌<◌, ◌≤◌, ◌++◌, true, false, length, IsOk, IfOk, IfErr, MatchOption};
ghost use Rattle.packets.specs.Spelling.{payload, protocol_number, acknowledgement_bytes, data_numbers, NamesWrite, FitsAcknowledgement, FitsFields};
ghost use Rattle.packets.specs.Spelling.{IsSpellable, Spells};
ghost use Rattle.packets.specs.Table.{has_blocks};
ghost use Rattle.packets.specs.Written.{front, numbers, blocks_in};
ghost use Rattle.blocks.specs.declared.refusal.Refusal.TheVariants.{NoMemory};
ghost use Rattle.packets.specs.declared.packet.Packet.TheVariants as packet;

use crate::header::{DATA_NUMBERS, MAGIC, command_number};
use crate::numbers::{put_u16, put_u32, put_u64};
use crate::reading::BLOCK_SECTORS;
use crate::{Acknowledgement, FixedPart, Frame, Packet};
use blocks::{BLOCK_BYTES, Block, Protocol, Refusal, Tuple};
use bytes::Bytes;
use std::alloc::Global;

/// Returns the frame that encodes a packet. `NoMemory` (7) if the buffer of a packet with blocks cannot be allocated;
/// there is no other refusal, and none for a packet without blocks, whose frame takes no memory.
pub fn encode(packet: &Packet) -> Result<Frame, Refusal>
    requires { IsSpellable packet.now }
    ensures spelled { IfOk result (λ frame. Spells packet.now frame) }
    ensures short { has_blocks packet.now ≡ false → IsOk result }
    ensures refused { IfErr result (λ e. e ≡ NoMemory) }
{
    let front = front_of(packet);
    match blocks_of(packet) {
        Some(blocks) => Ok(Frame::fronted(front, blocks.clone()?)),
        None => Ok(Frame::of(front)),
    }
}

/// Returns the blocks of a packet that carries some.
fn blocks_of(packet: &Packet) -> Option<&Bytes>
    ensures { MatchOption result (has_blocks packet.now ≡ false)
        (λ blocks. (has_blocks packet.now ≡ true) × (blocks.now ≡ blocks_in packet.now)) }
{
    match packet {
        Packet::Data { contents, .. } | Packet::RsDataReply { contents, .. } => Some(contents),
        _ => None,
    }
}

/// Returns the front of a packet's frame: its header, and the numbers of its payload.
fn front_of(packet: &Packet) -> FixedPart
    requires { IsSpellable packet.now }
    ensures front { result ≡ front packet.now }
    ensures fields { FitsFields packet.now }
{
    let mut out = FixedPart::new();
    put_u16(&mut out, MAGIC);
    put_u16(&mut out, command_number(packet.command()));
    put_u32(&mut out, payload_len(packet));
    put_numbers(&mut out, packet);
    out
}

/// Returns how many bytes a packet's payload has.
#[tactic(auto, using(crate::proofs::Lengths::payload_length))]
fn payload_len(packet: &Packet) -> u32
    requires { IsSpellable packet.now }
    ensures { result ≡ length (payload packet.now) }
{
    match packet {
        Packet::Protocol(_) => 4,
        Packet::Sizes { .. }
        | Packet::Barrier { .. }
        | Packet::SyncUuid { .. }
        | Packet::BarrierAck { .. } => 8,
        Packet::Uuids(_) => 32,
        Packet::Data { contents, .. } | Packet::RsDataReply { contents, .. } => {
            DATA_NUMBERS + contents.len() as u32
        }
        Packet::RecvAck(_) | Packet::WriteAck(_) | Packet::RsWriteAck(_) => 24,
    }
}

/// Puts the numbers of a packet's payload at the end of its header.
fn put_numbers(out: &mut FixedPart, packet: &Packet)
    requires spellable { IsSpellable packet.now }
    requires room { length out.old ≡ 8 }
    ensures written { out.new ≡ out.old ++ numbers packet.now }
    // Each number fits its field.
    ensures fields { FitsFields packet.now }
{
    match packet {
        Packet::Protocol(protocol) => put_u32(out, protocol_word(*protocol)),
        Packet::Sizes { blocks } => put_u64(out, *blocks),
        Packet::Uuids(tuple) => put_tuple(out, tuple),
        Packet::Data {
            first,
            number,
            place,
            ..
        } => put_data(out, *first, *number, *place),
        Packet::RsDataReply { first, place, .. } => put_data(out, *first, 0, *place),
        Packet::Barrier { number } => {
            put_u32(out, *number);
            put_u32(out, 0);
        }
        Packet::SyncUuid { word } => put_u64(out, *word),
        Packet::RecvAck(ack) | Packet::WriteAck(ack) | Packet::RsWriteAck(ack) => {
            put_acknowledgement(out, ack);
        }
        Packet::BarrierAck { number, size } => {
            put_u32(out, *number);
            put_u32(out, *size);
        }
    }
}

/// Returns the number of a replication protocol in a frame.
fn protocol_word(protocol: Protocol) -> u32
    ensures { result ≡ protocol_number protocol }
{
    match protocol {
        Protocol::A => 1,
        Protocol::B => 2,
        Protocol::C => 3,
    }
}

/// Puts a tuple's four words at the end.
fn put_tuple(out: &mut FixedPart, tuple: &Tuple)
    requires { length out.old ≡ 8 }
    ensures written { out.new ≡ out.old ++ payload (packet.Uuids tuple.now) }
    ensures fields { FitsFields (packet.Uuids tuple.now) }
{
    put_u64(out, tuple.current);
    put_u64(out, tuple.bitmap);
    put_u64(out, tuple.first_historical);
    put_u64(out, tuple.second_historical);
}

/// Puts the numbers of a write or of a resync block at the end, flags among them.
fn put_data(out: &mut FixedPart, first: Block, number: u64, place: u32)
    requires sector { 8 * first.0 < 2 ^ 64 }
    requires room { length out.old ≡ 8 }
    ensures { out.new ≡ out.old ++ data_numbers first.0 number place }
{
    put_u64(out, BLOCK_SECTORS * first.0);
    put_u64(out, number);
    put_u32(out, place);
    put_u32(out, 0);
}

/// Puts the fields of an acknowledgement at the end.
fn put_acknowledgement(out: &mut FixedPart, ack: &Acknowledgement)
    requires sector { 8 * ack.now.first.0 < 2 ^ 64 }
    requires few { ack.now.count ≤ 32 }
    requires room { length out.old ≡ 8 }
    ensures written { out.new ≡ out.old ++ acknowledgement_bytes ack.now }
    ensures fields { FitsAcknowledgement ack.now }
{
    put_u64(out, BLOCK_SECTORS * ack.first.0);
    put_u64(out, ack.number);
    put_u32(out, BLOCK_BYTES as u32 * ack.count);
    put_u32(out, ack.place);
}
