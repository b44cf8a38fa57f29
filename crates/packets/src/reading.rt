//! Decoding of frames into packets.
ghost use Rattle.std.specs.Prelude.{◌≡◌, ◌≢◌, ◌+◌, ◌-◌, ◌<◌, ◌≤◌, true, false, ℕ, length, drop, slice_index, Ok, Err, IfOk, IfErr};
ghost use Rattle.packets.specs.Spelling.{IsSpellable, Spells};
ghost use Rattle.packets.specs.Frames.{IsFrameFault, frame_read, in_hello, is_fault, fault_in_hello};
ghost use Rattle.packets.specs.Table.{has_blocks, is_length};
ghost use Rattle.packets.specs.Headed.{IsHeaded, is_awaited, named};
ghost use Rattle.packets.specs.Reading.{header_at, payload_at, protocol_at, uuids_at, data_at, rs_data_at, barrier_at, acknowledgement_at, names_write, names_resync};
ghost use Rattle.packets.specs.Numbers.{number_in};
ghost use Rattle.packets.specs.declared.fixed_part.TheConstants.{FIXED_BYTES};
ghost use Rattle.packets.specs.declared.packet.Packet.{Packet};
ghost use Rattle.packets.specs.declared.packet.Packet.TheVariants as packet;
ghost use Rattle.blocks.specs.declared.refusal.Refusal.TheVariants.{BadField, BadLength, NoMemory};

use crate::frame::FRONT_BYTES;
use crate::header::{HEADER_BYTES, Header, command_number, is_whole_blocks};
use crate::numbers::{below_256, u32_at, u64_at};
use crate::{Acknowledgement, Frame, Packet};
use blocks::{BLOCK_BYTES, Block, Command, Protocol, Refusal, Tuple};

/// The most bytes of a payload without blocks.
const MAX_SHORT_PAYLOAD: u32 = 32;

/// Sectors of 512 bytes in a block.
pub(crate) const BLOCK_SECTORS: u64 = 8;

/// Returns the packet that one whole frame encodes. It takes no memory: the blocks of a DATA or RS_DATA_REPLY frame
/// stay in the frame's buffer.
///
/// `BadMagic` (20), `BadCommand` (21) or `BadLength` (22) if the header has such a fault, in this order, and
/// `BadLength` also if the frame has no whole header, or ends before or goes on after its payload. `BadField` (23)
/// comes last, if a field has a value that it may not have (this project's layout). A refused frame is dropped.
pub fn decode(frame: Frame) -> Result<Packet, Refusal>
    // The frame is an encoding of the packet that it decodes to.
    ensures found { IfOk result (λ p. IsSpellable p × Spells p frame) }
    // An encoding of a packet decodes to that packet.
    ensures only { (p : Packet) → IsSpellable p → Spells p frame → result ≡ Ok p }
    // A refusal is the frame's first fault.
    ensures fault { IfErr result (λ e. IsFrameFault frame e) }
    ensures takes_no_memory { IfErr result (λ e. e ≢ NoMemory) }
{
    let header = whole_header(&frame)?;
    packet_of(header, frame)
}

/// Returns the packet that one whole frame encodes, as [`decode`] does. But while a hello expects a frame of one
/// command, a frame of another command with a fault of its fields (23) is `BadCommand` (21), since the command is
/// checked before the fields (this project's rule). It takes no memory.
pub fn read(frame: Frame, hello: Option<Command>) -> Result<Packet, Refusal>
    ensures is { result ≡ in_hello hello frame (frame_read frame) }
    ensures spellable { IfOk result IsSpellable }
    ensures faults { IfErr result (λ e. is_fault e ≡ true) }
    // A packet without blocks has a short frame.
    ensures short { IfOk result (λ p. has_blocks p ≡ false → length frame ≤ FIXED_BYTES) }
{
    // A fault that comes before the fields is returned, whatever command a hello expects.
    let header = whole_header(&frame)?;
    match packet_of(header, frame) {
        Ok(packet) => Ok(packet),
        Err(fault) => Err(fault_in_hello(is_awaited(hello, header.command), fault)),
    }
}

/// Returns whether a hello goes on that expects this command, or no hello goes on.
fn is_awaited(hello: Option<Command>, command: Command) -> bool
    ensures { result ≡ is_awaited hello command }
{
    match hello {
        None => true,
        Some(expected) => command_number(command) == command_number(expected),
    }
}

/// Returns a frame's fault, given whether its command is the expected one: another command (21) comes before a fault
/// of its fields (23).
fn fault_in_hello(is_expected: bool, fault: Refusal) -> Refusal
    ensures { result ≡ fault_in_hello is_expected fault }
{
    match fault {
        Refusal::BadField if !is_expected => Refusal::BadCommand,
        _ => fault,
    }
}

/// Returns the header of a frame that is as long as its header says, or the frame's first fault before its fields.
#[tactic(auto, unfolding(crate::specs::Frames::frame_read))]
fn whole_header(frame: &Frame) -> Result<Header, Refusal>
    ensures headed { IfOk result (λ header. IsHeaded header frame.now) }
    ensures fault { IfErr result (λ e. IsFrameFault frame.now e) }
    ensures is { IfErr result (λ e. frame_read frame.now ≡ Err e) }
    ensures before_fields { IfErr result (λ e. e ≢ BadField) }
{
    let header = header_of(frame)?;
    if !frame.has_length(HEADER_BYTES + header.len as usize) {
        return Err(Refusal::BadLength);
    }
    Ok(header)
}

/// Returns the header of a frame. `BadLength` (22) if it has none, and else what [`Header::judge`] says.
fn header_of(frame: &Frame) -> Result<Header, Refusal>
    ensures judged { 8 ≤ length frame.now → result ≡ header_at frame.now }
    ensures none { length frame.now < 8 → result ≡ Err BadLength }
    ensures bytes { (i : ℕ) → slice_index frame.now i < 256 }
{
    let (front, blocks) = frame.parts();
    below_256(front);
    below_256(blocks);
    if front.len() < HEADER_BYTES {
        return Err(Refusal::BadLength);
    }
    Header::judge(front)
}

/// Decodes the payload of a frame that is as long as its header says.
#[tactic(auto, unfolding(crate::specs::Reading::payload_at))]
pub(crate) fn packet_of(header: Header, frame: Frame) -> Result<Packet, Refusal>
    requires whole { length frame ≡ 8 + header.len }
    requires row { is_length header.command header.len ≡ true }
    ensures { result ≡ payload_at header.command (drop 8 frame) }
{
    if header.len > MAX_SHORT_PAYLOAD {
        return blocks_of(header.command, frame);
    }
    short_packet_of(header.command, &frame.parts().0[HEADER_BYTES..])
}

/// Decodes a frame with blocks.
#[tactic(auto, unfolding(crate::specs::Reading::payload_at))]
fn blocks_of(command: Command, frame: Frame) -> Result<Packet, Refusal>
    requires long { FIXED_BYTES < length frame }
    requires row { is_length command (length frame - 8) ≡ true }
    ensures { result ≡ payload_at command (drop 8 frame) }
{
    match command {
        Command::Data => data_of(frame),
        Command::RsDataReply => rs_data_of(frame),
        Command::Protocol
        | Command::Sizes
        | Command::Uuids
        | Command::Barrier
        | Command::SyncUuid
        | Command::RecvAck
        | Command::WriteAck
        | Command::RsWriteAck
        | Command::BarrierAck => unreachable!(),
    }
}

/// Decodes the payload of a frame without blocks.
#[tactic(auto, unfolding(crate::specs::Reading::payload_at))]
fn short_packet_of(command: Command, bytes: &[u8]) -> Result<Packet, Refusal>
    requires row { is_length command (length bytes.now) ≡ true }
    requires short { length bytes.now ≤ 32 }
    ensures { result ≡ payload_at command bytes.now }
{
    match command {
        Command::Protocol => protocol_of(u32_at(bytes, 0)),
        Command::Sizes => Ok(Packet::Sizes {
            blocks: u64_at(bytes, 0),
        }),
        Command::Uuids => Ok(Packet::Uuids(tuple_of(bytes))),
        Command::Barrier => barrier_of(bytes),
        Command::SyncUuid => Ok(Packet::SyncUuid {
            word: u64_at(bytes, 0),
        }),
        Command::RecvAck => Ok(Packet::RecvAck(write_named(bytes)?)),
        Command::WriteAck => Ok(Packet::WriteAck(write_named(bytes)?)),
        Command::RsWriteAck => Ok(Packet::RsWriteAck(resync_named(bytes)?)),
        Command::BarrierAck => Ok(Packet::BarrierAck {
            number: u32_at(bytes, 0),
            size: u32_at(bytes, 4),
        }),
        Command::Data | Command::RsDataReply => unreachable!(),
    }
}

fn protocol_of(number: u32) -> Result<Packet, Refusal>
    ensures { result ≡ protocol_at number }
{
    match number {
        1 => Ok(Packet::Protocol(Protocol::A)),
        2 => Ok(Packet::Protocol(Protocol::B)),
        3 => Ok(Packet::Protocol(Protocol::C)),
        _ => Err(Refusal::BadField),
    }
}

fn tuple_of(bytes: &[u8]) -> Tuple
    requires { 32 ≤ length bytes.now }
    ensures { packet.Uuids result ≡ uuids_at bytes.now }
{
    Tuple {
        current: u64_at(bytes, 0),
        bitmap: u64_at(bytes, 8),
        first_historical: u64_at(bytes, 16),
        second_historical: u64_at(bytes, 24),
    }
}

/// The numbers of a frame with blocks.
struct DataNumbers {
    sector: u64,
    number: u64,
    place: u32,
    flags: u32,
}

impl DataNumbers {
    /// Reads them.
    fn of(frame: &Frame) -> DataNumbers
        requires { FIXED_BYTES < length frame.now }
        ensures sector { result.sector ≡ number_in 8 0 (drop 8 frame.now) }
        ensures number { result.number ≡ number_in 8 8 (drop 8 frame.now) }
        ensures place { result.place ≡ number_in 4 16 (drop 8 frame.now) }
        ensures flags { result.flags ≡ number_in 4 20 (drop 8 frame.now) }
    {
        let (front, _) = frame.parts();
        let bytes = &front[HEADER_BYTES..FRONT_BYTES];
        DataNumbers {
            sector: u64_at(bytes, 0),
            number: u64_at(bytes, 8),
            place: u32_at(bytes, 16),
            flags: u32_at(bytes, 20),
        }
    }
}

#[tactic(auto, unfolding(crate::specs::Reading::data_at))]
fn data_of(frame: Frame) -> Result<Packet, Refusal>
    requires { FIXED_BYTES < length frame }
    ensures { result ≡ data_at (drop 8 frame) }
{
    let DataNumbers {
        sector,
        number,
        place,
        flags,
    } = DataNumbers::of(&frame);
    if sector % BLOCK_SECTORS != 0 || number == 0 || flags != 0 {
        return Err(Refusal::BadField);
    }
    Ok(Packet::Data {
        first: Block(sector / BLOCK_SECTORS),
        number,
        place,
        contents: frame.into_blocks(),
    })
}

#[tactic(auto, unfolding(crate::specs::Reading::rs_data_at))]
fn rs_data_of(frame: Frame) -> Result<Packet, Refusal>
    requires { FIXED_BYTES < length frame }
    ensures { result ≡ rs_data_at (drop 8 frame) }
{
    let DataNumbers {
        sector,
        number,
        place,
        flags,
    } = DataNumbers::of(&frame);
    if sector % BLOCK_SECTORS != 0 || number != 0 || flags != 0 {
        return Err(Refusal::BadField);
    }
    Ok(Packet::RsDataReply {
        first: Block(sector / BLOCK_SECTORS),
        place,
        contents: frame.into_blocks(),
    })
}

#[tactic(auto, unfolding(crate::specs::Reading::barrier_at))]
fn barrier_of(bytes: &[u8]) -> Result<Packet, Refusal>
    requires { 8 ≤ length bytes.now }
    ensures { result ≡ barrier_at bytes.now }
{
    if u32_at(bytes, 4) != 0 {
        return Err(Refusal::BadField);
    }
    Ok(Packet::Barrier {
        number: u32_at(bytes, 0),
    })
}

/// Returns the write that an acknowledgement names. `BadField` (23) if its fields may name none.
#[tactic(auto, unfolding(crate::specs::Reading::names_write, crate::specs::Reading::acknowledgement_at))]
fn write_named(bytes: &[u8]) -> Result<Acknowledgement, Refusal>
    requires { 24 ≤ length bytes.now }
    ensures { result ≡ named (names_write bytes.now) (acknowledgement_at bytes.now) }
{
    let sector = u64_at(bytes, 0);
    let number = u64_at(bytes, 8);
    let size = u32_at(bytes, 16);
    if sector % BLOCK_SECTORS != 0 || number == 0 || !is_whole_blocks(size) {
        return Err(Refusal::BadField);
    }
    Ok(Acknowledgement {
        first: Block(sector / BLOCK_SECTORS),
        number,
        count: size / BLOCK_BYTES as u32,
        place: u32_at(bytes, 20),
    })
}

/// Returns the block of a resync that an acknowledgement names. `BadField` (23) if its fields may name none.
#[tactic(auto, unfolding(crate::specs::Reading::names_resync, crate::specs::Reading::acknowledgement_at))]
fn resync_named(bytes: &[u8]) -> Result<Acknowledgement, Refusal>
    requires { 24 ≤ length bytes.now }
    ensures { result ≡ named (names_resync bytes.now) (acknowledgement_at bytes.now) }
{
    let sector = u64_at(bytes, 0);
    let number = u64_at(bytes, 8);
    let size = u32_at(bytes, 16);
    if sector % BLOCK_SECTORS != 0 || number != 0 || size != BLOCK_BYTES as u32 {
        return Err(Refusal::BadField);
    }
    Ok(Acknowledgement {
        first: Block(sector / BLOCK_SECTORS),
        number,
        count: size / BLOCK_BYTES as u32,
        place: u32_at(bytes, 20),
    })
}
