//! Numbers in bytes, the highest byte first. No call takes memory.
ghost use Rattle.std.specs.Prelude.{◌≡◌, ℕ, ◌+◌, ◌<◌, ◌≤◌, ◌++◌, length, slice_index};
ghost use Rattle.packets.specs.Numbers.{number_in, number_bytes};
ghost use Rattle.packets.specs.declared.fixed_part.TheConstants.{FIXED_BYTES};

use crate::FixedPart;
use byteorder::{BigEndian, ByteOrder};

/// Returns the number in the two bytes at a place.
#[tactic(auto, unfolding(crate::specs::Numbers::number_in))]
pub fn u16_at(bytes: &[u8], place: usize) -> u16
    requires { place + 2 ≤ length bytes.now }
    ensures { result ≡ number_in 2 place bytes.now }
{
    BigEndian::read_u16(&bytes[place..])
}

/// Returns the number in the four bytes at a place.
#[tactic(auto, unfolding(crate::specs::Numbers::number_in))]
pub fn u32_at(bytes: &[u8], place: usize) -> u32
    requires { place + 4 ≤ length bytes.now }
    ensures { result ≡ number_in 4 place bytes.now }
{
    BigEndian::read_u32(&bytes[place..])
}

/// Returns the number in the eight bytes at a place.
#[tactic(auto, unfolding(crate::specs::Numbers::number_in))]
pub fn u64_at(bytes: &[u8], place: usize) -> u64
    requires { place + 8 ≤ length bytes.now }
    ensures { result ≡ number_in 8 place bytes.now }
{
    BigEndian::read_u64(&bytes[place..])
}

/// Appends the two bytes of a number.
#[tactic(auto, unfolding(crate::specs::Numbers::number_bytes))]
pub fn put_u16(out: &mut FixedPart, number: u16)
    requires { length out.old + 2 ≤ FIXED_BYTES }
    ensures written { out.new ≡ out.old ++ number_bytes 2 number }
    ensures len { length out.new ≡ length out.old + 2 }
{
    let mut bytes = [0; 2];
    BigEndian::write_u16(&mut bytes, number);
    out.put(&bytes);
}

/// Appends the four bytes of a number.
#[tactic(auto, unfolding(crate::specs::Numbers::number_bytes))]
pub fn put_u32(out: &mut FixedPart, number: u32)
    requires { length out.old + 4 ≤ FIXED_BYTES }
    ensures written { out.new ≡ out.old ++ number_bytes 4 number }
    ensures len { length out.new ≡ length out.old + 4 }
{
    let mut bytes = [0; 4];
    BigEndian::write_u32(&mut bytes, number);
    out.put(&bytes);
}

/// Appends the eight bytes of a number.
#[tactic(auto, unfolding(crate::specs::Numbers::number_bytes))]
pub fn put_u64(out: &mut FixedPart, number: u64)
    requires { length out.old + 8 ≤ FIXED_BYTES }
    ensures written { out.new ≡ out.old ++ number_bytes 8 number }
    ensures len { length out.new ≡ length out.old + 8 }
{
    let mut bytes = [0; 8];
    BigEndian::write_u64(&mut bytes, number);
    out.put(&bytes);
}

/// Proof hint: tells that a slice of bytes holds numbers below 256.
pub(crate) fn below_256(bytes: &[u8])
    ensures { (i : ℕ) → slice_index bytes.now i < 256 }
{
    let _ = bytes;
}
