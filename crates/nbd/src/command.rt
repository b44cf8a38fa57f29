//! Commands of a request, and their flags.
ghost use Rattle.std.specs.Prelude.{◌≡◌};
ghost use Rattle.nbd.specs.Judging.{kind_of, command_at, allowed, may_have, is_fast, is_long, past_end};

use crate::{Errno, Terms};

/// The most bytes of a READ or a WRITE, 32 MiB: the default that clients may rely on (NBD protocol, "Block size
/// constraints").
pub(crate) const MAX_REQUEST_BYTES: u32 = 33_554_432;

/// NBD_CMD_FLAG_FUA: the reply waits until the data are on stable storage (NBD protocol, "Command flags").
pub(crate) const FLAG_FUA: u16 = 1;

/// NBD_CMD_FLAG_NO_HOLE: the zeros are written, and no hole is made (NBD protocol, "Command flags").
pub(crate) const FLAG_NO_HOLE: u16 = 2;

/// NBD_CMD_FLAG_DF: the data of a READ come in one chunk (NBD protocol, "Structured reply flags").
pub(crate) const FLAG_DF: u16 = 4;

/// NBD_CMD_FLAG_REQ_ONE: the reply to a BLOCK_STATUS tells one extent (NBD protocol, "Command flags").
pub(crate) const FLAG_REQ_ONE: u16 = 8;

/// NBD_CMD_FLAG_FAST_ZERO: the zeros are written only if that is faster than a WRITE of zeros (NBD protocol, "Command flags").
pub(crate) const FLAG_FAST_ZERO: u16 = 16;

/// The command of a request (NBD protocol, "Request types").
#[derive(Clone, Copy, Debug, PartialEq, Eq)]
pub enum NbdCommand {
    /// Reads bytes.
    Read,
    /// Writes bytes.
    Write,
    /// Ends the connection. It has no reply.
    Disconnect,
    /// Puts all completed writes on stable storage.
    Flush,
    /// Gives up bytes. This server fills the whole blocks among them with zeros.
    Trim,
    /// Fills bytes with zeros.
    WriteZeroes,
    /// Asks which bytes are zeros.
    BlockStatus,
}

impl NbdCommand {
    /// Returns the command's number in a request.
    pub fn number(self) -> u16
        ensures { result ≡ kind_of self }
    {
        match self {
            NbdCommand::Read => 0,
            NbdCommand::Write => 1,
            NbdCommand::Disconnect => 2,
            NbdCommand::Flush => 3,
            NbdCommand::Trim => 4,
            NbdCommand::WriteZeroes => 6,
            NbdCommand::BlockStatus => 7,
        }
    }

    /// Returns the command with this number; `None` if no command of this server has it.
    pub fn with_number(number: u16) -> Option<NbdCommand>
        ensures { result ≡ command_at number }
    {
        match number {
            0 => Some(NbdCommand::Read),
            1 => Some(NbdCommand::Write),
            2 => Some(NbdCommand::Disconnect),
            3 => Some(NbdCommand::Flush),
            4 => Some(NbdCommand::Trim),
            6 => Some(NbdCommand::WriteZeroes),
            7 => Some(NbdCommand::BlockStatus),
            _ => None,
        }
    }

    /// Returns whether a request with this command may have these flags on such terms: FUA goes with each command, as the protocol
    /// demands of a server that offers it; NO_HOLE and FAST_ZERO go with WRITE_ZEROES only, DF with a READ where replies are
    /// structured, and REQ_ONE with BLOCK_STATUS.
    pub(crate) fn may_have(self, terms: Terms, flags: u16) -> bool
        ensures { result ≡ may_have terms self flags }
    {
        flags & self.allowed_flags(terms) == flags
    }

    // Returns the flags that a request with this command may have.
    fn allowed_flags(self, terms: Terms) -> u16
        ensures { result ≡ allowed terms self }
    {
        match self {
            NbdCommand::Read if terms.structured => FLAG_FUA + FLAG_DF,
            NbdCommand::BlockStatus => FLAG_FUA + FLAG_REQ_ONE,
            NbdCommand::WriteZeroes => FLAG_FUA + FLAG_NO_HOLE + FLAG_FAST_ZERO,
            _ => FLAG_FUA,
        }
    }

    /// Returns whether the length exceeds the most bytes of a payload, the request's or its reply's.
    pub(crate) fn is_long(self, length: u32) -> bool
        ensures { result ≡ is_long self length }
    {
        match self {
            NbdCommand::Trim | NbdCommand::WriteZeroes | NbdCommand::BlockStatus => false,
            _ => length > MAX_REQUEST_BYTES,
        }
    }

    /// Returns the error for a range past the device's end.
    pub(crate) fn past_end(self) -> Errno
        ensures { result ≡ past_end self }
    {
        match self {
            NbdCommand::Write | NbdCommand::WriteZeroes => Errno::NoSpace,
            _ => Errno::Invalid,
        }
    }
}

/// Returns whether these flags ask for zeros only where they are faster than a WRITE.
pub(crate) fn is_fast(flags: u16) -> bool
    ensures { result ≡ is_fast flags }
{
    flags & FLAG_FAST_ZERO == FLAG_FAST_ZERO
}
