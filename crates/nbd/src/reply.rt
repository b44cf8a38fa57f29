//! The header of a reply.
ghost use Rattle.std.specs.Prelude.{◌≡◌, ℕ, length, Ok, IfOk, IfErr, Option, Result};
ghost use Rattle.nbd.specs.Replies.{IsReplyFault, SpellsReply, reply_at};
ghost use Rattle.nbd.specs.declared.reply.Reply.{Reply};

use crate::Errno;
use blocks::Refusal;
use packets::{FixedPart, put_u32, put_u64, u32_at, u64_at};

/// NBD_SIMPLE_REPLY_MAGIC, which begins each reply.
const REPLY_MAGIC: u32 = 0x6744_6698;

/// Bytes of a reply's header.
pub const REPLY_BYTES: usize = 16;

/// The header of a reply (NBD protocol, "Simple reply message"). If a READ succeeded, its data follow.
#[derive(Clone, Copy, Debug, PartialEq, Eq)]
pub struct Reply {
    /// The cookie of the request.
    pub cookie: u64,
    /// Why the request failed, if it did.
    pub error: Option<Errno>,
}

impl Reply {
    /// Returns the 16 bytes that spell the reply.
    #[tactic(auto, unfolding(crate::specs::Replies::reply_spelling))]
    pub fn encode(&self) -> FixedPart
        ensures { SpellsReply self.now result }
    {
        let mut out = FixedPart::new();
        put_u32(&mut out, REPLY_MAGIC);
        put_u32(&mut out, self.error.map_or(0, Errno::number));
        put_u64(&mut out, self.cookie);
        out
    }

    /// Returns the reply that 16 bytes spell. `BadMagic` (20) comes if they do not begin with the magic number, and
    /// then `BadField` (23) if no error has their error number.
    pub fn decode(bytes: &[u8]) -> Result<Reply, Refusal>
        requires { length bytes.now ≡ 16 }
        // The bytes spell the reply that is returned.
        ensures found { IfOk result (λ r. SpellsReply r bytes.now) }
        // A reply that the bytes spell is returned.
        ensures only { (r : Reply) → SpellsReply r bytes.now → result ≡ Ok r }
        // A refusal names the first fault.
        ensures fault { IfErr result (λ e. IsReplyFault bytes.now e) }
        ensures is { result ≡ reply_at bytes.now }
    {
        Reply::read(bytes)
    }

    /// Reads the fields of 16 bytes.
    #[tactic(auto, unfolding(crate::specs::Replies::reply_at))]
    fn read(bytes: &[u8]) -> Result<Reply, Refusal>
        requires { length bytes.now ≡ 16 }
        ensures { result ≡ reply_at bytes.now }
    {
        if u32_at(bytes, 0) != REPLY_MAGIC {
            return Err(Refusal::BadMagic);
        }
        let number = u32_at(bytes, 4);
        let cookie = u64_at(bytes, 8);
        if number == 0 {
            return Ok(Reply {
                cookie,
                error: None,
            });
        }
        match Errno::with_number(number) {
            Some(errno) => Ok(Reply {
                cookie,
                error: Some(errno),
            }),
            None => Err(Refusal::BadField),
        }
    }
}
