//! The header of a request.
ghost use Rattle.std.specs.Prelude.{◌≡◌, ◌≢◌, length, Ok, IfOk, IfErr};
ghost use Rattle.packets.specs.Numbers.{number_in};
ghost use Rattle.nbd.specs.Requests.{Spells, header_at, request_magic};
ghost use Rattle.nbd.specs.declared.header.RequestHeader.{RequestHeader};
ghost use Rattle.blocks.specs.declared.refusal.Refusal.TheVariants.{BadMagic};

use blocks::Refusal;
use packets::{FixedPart, put_u16, put_u32, put_u64, u16_at, u32_at, u64_at};

/// NBD_REQUEST_MAGIC, which begins each request.
const REQUEST_MAGIC: u32 = 0x2560_9513;

/// Bytes of a request's header.
pub const REQUEST_BYTES: usize = 28;

/// The header of a request on the wire (NBD protocol, "Request message"). Its fields may have any values:
/// [`Export::judge`](crate::Export::judge) accepts or refuses the request.
#[derive(Clone, Copy, Debug, PartialEq, Eq)]
pub struct RequestHeader {
    /// The command flags.
    pub flags: u16,
    /// The number of the command, which the protocol calls the type.
    pub kind: u16,
    /// The client's name for the request; its reply repeats it.
    pub cookie: u64,
    /// The first byte of its range.
    pub offset: u64,
    /// The bytes of its range.
    pub length: u32,
}

impl RequestHeader {
    /// Returns the 28 bytes that spell the header.
    #[tactic(auto, unfolding(crate::specs::Requests::spelling))]
    pub fn encode(&self) -> FixedPart
        ensures { Spells self.now result }
    {
        let mut out = FixedPart::new();
        put_u32(&mut out, REQUEST_MAGIC);
        put_u16(&mut out, self.flags);
        put_u16(&mut out, self.kind);
        put_u64(&mut out, self.cookie);
        put_u64(&mut out, self.offset);
        put_u32(&mut out, self.length);
        out
    }

    /// Returns the header that 28 bytes spell. `BadMagic` (20), the only refusal, comes if they do not begin with the
    /// magic number.
    pub fn decode(bytes: &[u8]) -> Result<RequestHeader, Refusal>
        requires { length bytes.now ≡ 28 }
        // The bytes spell the header that is returned.
        ensures found { IfOk result (λ h. Spells h bytes.now) }
        // A header that the bytes spell is returned.
        ensures only { (h : RequestHeader) → Spells h bytes.now → result ≡ Ok h }
        // Bytes that are refused do not begin with the magic number.
        ensures refused { IfErr result (λ e. (e ≡ BadMagic) × (number_in 4 0 bytes.now ≢ request_magic)) }
        ensures is { result ≡ header_at bytes.now }
    {
        RequestHeader::read(bytes)
    }

    /// Reads the fields of 28 bytes.
    #[tactic(auto, unfolding(crate::specs::Requests::header_at, crate::specs::Requests::fields_at))]
    fn read(bytes: &[u8]) -> Result<RequestHeader, Refusal>
        requires { length bytes.now ≡ 28 }
        ensures { result ≡ header_at bytes.now }
    {
        if u32_at(bytes, 0) != REQUEST_MAGIC {
            return Err(Refusal::BadMagic);
        }
        Ok(RequestHeader {
            flags: u16_at(bytes, 4),
            kind: u16_at(bytes, 6),
            cookie: u64_at(bytes, 8),
            offset: u64_at(bytes, 16),
            length: u32_at(bytes, 24),
        })
    }
}
