//! The header of a frame, and the table of the frames: the number of each command, and how long its
//! payload is.
ghost use Rattle.std.specs.Prelude.{◌≡◌, ℕ, ◌<◌, ◌≤◌, length, slice_index};
ghost use Rattle.packets.specs.Table.{number_of, command_at, is_blocks, is_length};
ghost use Rattle.packets.specs.Reading.{header_at};
ghost use Rattle.packets.specs.Numbers.{number_in};

use crate::numbers::u64_at;
use blocks::{BLOCK_BYTES, Command, MAX_RANGE, Refusal};

/// The magic number that each frame begins with. The header is that of DRBD's large packets, `p_header95`, with its
/// `DRBD_MAGIC_BIG` (`drbd_protocol.h`); here each packet has it.
pub(crate) const MAGIC: u16 = 0x835A;

/// Bytes of a header: magic number, command number and payload length.
pub(crate) const HEADER_BYTES: usize = 8;

/// Bytes of the numbers of a DATA frame, before its blocks.
pub(crate) const DATA_NUMBERS: u32 = 24;

/// A checked header: a command of the table, and a length that its row allows.
#[derive(Clone, Copy, PartialEq, Eq)]
pub(crate) struct Header {
    /// The frame's command.
    pub(crate) command: Command,
    /// Bytes of its payload.
    pub(crate) len: u32,
}

impl Header {
    /// Returns the header in the first 8 bytes. `BadMagic` (20) if they do not begin with the magic number, then
    /// `BadCommand` (21) if the table has no such command, then `BadLength` (22) if its row does not allow the
    /// length.
    #[tactic(auto, unfolding(crate::specs::Reading::header_at))]
    pub(crate) fn judge(bytes: &[u8]) -> Result<Header, Refusal>
        requires { 8 ≤ length bytes.now }
        ensures judged { result ≡ header_at bytes.now }
        // A slice of bytes holds numbers below 256.
        ensures bytes { (i : ℕ) → slice_index bytes.now i < 256 }
    {
        let numbers = header_numbers(bytes);
        if numbers.magic != MAGIC {
            return Err(Refusal::BadMagic);
        }
        let Some(command) = command_with(numbers.command) else {
            return Err(Refusal::BadCommand);
        };
        let len = numbers.len;
        if !may_have(command, len) {
            return Err(Refusal::BadLength);
        }
        Ok(Header { command, len })
    }
}

/// The numbers of a header, before they are checked.
#[derive(Clone, Copy)]
struct HeaderNumbers {
    magic: u16,
    command: u16,
    len: u32,
}

/// Returns the numbers in the first 8 bytes, which it reads once, as one word.
fn header_numbers(bytes: &[u8]) -> HeaderNumbers
    requires { 8 ≤ length bytes.now }
    ensures magic { result.magic ≡ number_in 2 0 bytes.now }
    ensures command { result.command ≡ number_in 2 2 bytes.now }
    ensures len { result.len ≡ number_in 4 4 bytes.now }
{
    let word = u64_at(bytes, 0);
    HeaderNumbers {
        magic: (word >> 48) as u16,
        command: ((word >> 32) % 0x1_0000) as u16,
        len: (word % 0x1_0000_0000) as u32,
    }
}

/// Returns the number of a command in a header.
pub(crate) fn command_number(command: Command) -> u16
    ensures { result ≡ number_of command }
{
    match command {
        Command::Data => 0x0000,
        Command::RsDataReply => 0x0002,
        Command::Barrier => 0x0003,
        Command::Protocol => 0x000B,
        Command::Uuids => 0x000C,
        Command::Sizes => 0x000D,
        Command::SyncUuid => 0x000F,
        Command::RecvAck => 0x0015,
        Command::WriteAck => 0x0016,
        Command::RsWriteAck => 0x0017,
        Command::BarrierAck => 0x001C,
    }
}

/// Returns the command that has a number.
fn command_with(number: u16) -> Option<Command>
    ensures { result ≡ command_at number }
{
    match number {
        0x0000 => Some(Command::Data),
        0x0002 => Some(Command::RsDataReply),
        0x0003 => Some(Command::Barrier),
        0x000B => Some(Command::Protocol),
        0x000C => Some(Command::Uuids),
        0x000D => Some(Command::Sizes),
        0x000F => Some(Command::SyncUuid),
        0x0015 => Some(Command::RecvAck),
        0x0016 => Some(Command::WriteAck),
        0x0017 => Some(Command::RsWriteAck),
        0x001C => Some(Command::BarrierAck),
        _ => None,
    }
}

/// Returns whether the payload of a command may have `len` bytes.
fn may_have(command: Command, len: u32) -> bool
    ensures { result ≡ is_length command len }
{
    match command {
        Command::Data => len > DATA_NUMBERS && is_whole_blocks(len - DATA_NUMBERS),
        Command::RsDataReply => len == DATA_NUMBERS + BLOCK_BYTES as u32,
        Command::Protocol => len == 4,
        Command::Barrier | Command::Sizes | Command::SyncUuid | Command::BarrierAck => len == 8,
        Command::RecvAck | Command::WriteAck | Command::RsWriteAck => len == 24,
        Command::Uuids => len == 32,
    }
}

/// Returns whether `bytes` bytes are 1 to 32 whole blocks.
pub(crate) fn is_whole_blocks(bytes: u32) -> bool
    ensures { result ≡ is_blocks bytes }
{
    0 < bytes && bytes <= MAX_RANGE as u32 * BLOCK_BYTES as u32 && bytes % BLOCK_BYTES as u32 == 0
}
