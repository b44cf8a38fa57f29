//! The export: one device under a name, and the judgement of requests for it.
ghost use Rattle.std.specs.Prelude.{◌≡◌, ◌*◌, ◌<◌, ◌≤◌, ◌^◌, length, nat_lt, string_bytes};
ghost use Rattle.nbd.specs.Judging.{judged, judged_flush, judged_range, judged_status};
ghost use Rattle.nbd.specs.Exports.{export_now};
ghost use Rattle.nbd.specs.Terms.{plain};

use crate::command::is_fast;
use crate::{Errno, NbdCommand, RequestHeader, Terms};
use blocks::BLOCK_BYTES;
use std::marker::Model;

/// A device of whole blocks of 4,096 bytes, under a name, and the terms on which a client has it.
#[derive(Drop)]
pub struct Export {
    name: String,
    blocks: u32,
    terms: Terms,
}

impl Model for Export {
    ghost use Rattle.std.specs.Prelude.{◌≤◌, length, string_bytes};
    ghost use Rattle.nbd.specs.Exports.{Exported};

    ghost Value = { Exported };

    ghost view = { λ e. record { name = string_bytes e.name; blocks = e.blocks; terms = e.terms } };

    ghost invariant = { λ e. length (string_bytes e.name) ≤ 4096 };
}

impl Export {
    /// Creates an export of `blocks` blocks. The name has at most 4,096 bytes, the protocol's limit for a string (NBD
    /// protocol, "Values").
    pub fn new(name: String, blocks: u32) -> Export
        requires { length (string_bytes name) ≤ 4096 }
        ensures { result ≡ record { name = string_bytes name; blocks = blocks; terms = plain } }
    {
        Export {
            name,
            blocks,
            terms: Terms::plain(),
        }
    }

    /// Returns the export's name.
    pub fn name(&self) -> &str
        ensures value { result.now ≡ self.now.name }
        ensures few { length result.now ≤ 4096 }
    {
        self.name.as_str()
    }

    /// Returns the device's size in blocks.
    pub fn blocks(&self) -> u32
        ensures { result ≡ self.now.blocks }
    {
        self.blocks
    }

    /// Proof hint: brings the bound on the blocks into scope.
    pub(crate) fn is_bounded(&self)
        ensures { self.now.blocks < 2 ^ 32 }
    {
        let _blocks = self.blocks;
    }

    /// Returns the device's size in bytes.
    pub fn bytes(&self) -> u64
        ensures { result ≡ 4096 * self.now.blocks }
    {
        u64::from(self.blocks) * BLOCK_BYTES as u64
    }

    /// Returns the terms on which the client has it.
    pub fn terms(&self) -> Terms
        ensures { result ≡ self.now.terms }
    {
        self.terms
    }

    /// Sets the terms, if an option agreed any.
    pub(crate) fn agree(&mut self, terms: Option<Terms>)
        ensures { self.new ≡ export_now self.old terms }
    {
        if let Some(terms) = terms {
            self.terms = terms;
        }
    }

    /// Returns the command of a request, or the error that refuses the request. The tests are, in this order:
    ///
    /// 1. `Invalid` for an unknown command, or for a flag that the command may not have on the client's terms;
    /// 2. `Invalid` if the length is 0, whose meaning the protocol leaves open, and for a BLOCK_STATUS without its context;
    /// 3. `Overflow` for a READ or a WRITE of more than 33,554,432 bytes;
    /// 4. for a range past the device's end `NoSpace` at a WRITE or a WRITE_ZEROES, `Invalid` at a READ, a TRIM or a
    ///    BLOCK_STATUS;
    /// 5. `NotSupported` for a WRITE_ZEROES with FAST_ZERO: its zeros go over the link, so they are no faster than a WRITE.
    ///
    /// A FLUSH has no range: it is `Invalid` unless its offset and its length are 0, as the protocol demands.
    /// A request to disconnect is always accepted, since it has no reply.
    #[tactic(auto, unfolding(crate::specs::Judging::judged))]
    pub fn judge(&self, header: &RequestHeader) -> Result<NbdCommand, Errno>
        ensures { result ≡ judged self.now header.now }
    {
        let Some(command) = NbdCommand::with_number(header.kind) else {
            return Err(Errno::Invalid);
        };
        match command {
            NbdCommand::Disconnect => Ok(command),
            NbdCommand::Flush => self.judge_flush(header),
            NbdCommand::BlockStatus => self.judge_status(header),
            NbdCommand::Read | NbdCommand::Write | NbdCommand::Trim | NbdCommand::WriteZeroes =>
                self.judge_range(command, header),
        }
    }

    /// Judges a request for bytes.
    fn judge_range(&self, command: NbdCommand, header: &RequestHeader) -> Result<NbdCommand, Errno>
        ensures { result ≡ judged_range self.now command header.now }
    {
        if !command.may_have(self.terms, header.flags) || !has_bytes(header) {
            return Err(Errno::Invalid);
        }
        if command.is_long(header.length) {
            return Err(Errno::Overflow);
        }
        let bytes = self.bytes();
        let length = u64::from(header.length);
        if length > bytes || header.offset > bytes - length {
            return Err(command.past_end());
        }
        if is_fast(header.flags) {
            return Err(Errno::NotSupported);
        }
        Ok(command)
    }

    /// Judges a BLOCK_STATUS.
    fn judge_status(&self, header: &RequestHeader) -> Result<NbdCommand, Errno>
        ensures { result ≡ judged_status self.now header.now }
    {
        if self.terms.allocation {
            self.judge_range(NbdCommand::BlockStatus, header)
        } else {
            Err(Errno::Invalid)
        }
    }

    /// Judges a FLUSH.
    fn judge_flush(&self, header: &RequestHeader) -> Result<NbdCommand, Errno>
        ensures { result ≡ judged_flush self.now header.now }
    {
        if NbdCommand::Flush.may_have(self.terms, header.flags)
            && header.offset == 0
            && header.length == 0
        {
            Ok(NbdCommand::Flush)
        } else {
            Err(Errno::Invalid)
        }
    }
}

/// Returns whether a request is for any byte.
fn has_bytes(header: &RequestHeader) -> bool
    ensures { result ≡ nat_lt 0 header.now.length }
{
    header.length > 0
}
