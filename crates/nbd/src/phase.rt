//! The phases of a connection.
ghost use Rattle.std.specs.Prelude.{◌≡◌};
ghost use Rattle.nbd.specs.Machine.{is_of_handshake};
ghost use Rattle.nbd.specs.Steps.{wanted};

use crate::{Errno, REQUEST_BYTES, RequestHeader};

/// A part of the client's bytes that the connection gathers and then takes as one.
#[derive(Clone, Copy, Debug, PartialEq, Eq)]
pub(crate) enum Part {
    /// The client's flags.
    ClientFlags,
    /// The header of an option.
    Option {
        /// Whether the client set NO_ZEROES.
        no_zeroes: bool,
    },
    /// The data of an option.
    OptionData {
        /// Whether the client set NO_ZEROES.
        no_zeroes: bool,
        /// The option's number.
        option: u32,
        /// Bytes of its data: 1 to 8,192.
        length: u32,
    },
    /// The header of a request.
    Request,
    /// The payload of an accepted WRITE with this header.
    Payload(RequestHeader),
}

/// What the connection refuses once it has skipped the bytes.
#[derive(Clone, Copy, Debug, PartialEq, Eq)]
pub(crate) enum Refused {
    /// An option with more data than the connection keeps.
    LongOption {
        /// Whether the client set NO_ZEROES.
        no_zeroes: bool,
        /// The option's number.
        option: u32,
    },
    /// A WRITE.
    Write {
        /// The request's cookie.
        cookie: u64,
        /// Why it is refused.
        errno: Errno,
    },
}

/// A phase of a connection.
#[derive(Clone, Copy, Debug, PartialEq, Eq)]
pub(crate) enum Phase {
    /// Gathers a part.
    Gather(Part),
    /// Skips bytes, and keeps none of them.
    Skip {
        /// The bytes still to skip, at least one.
        left: u32,
        /// The refusal that follows.
        refused: Refused,
    },
    /// Ignores all further bytes.
    Closed,
}

impl Part {
    /// Returns the length of the part in bytes.
    pub(crate) fn wanted(&self) -> usize
        ensures { result ≡ wanted self.now }
    {
        match self {
            Part::ClientFlags => 4,
            Part::Option { .. } => 16,
            Part::OptionData { length, .. } => *length as usize,
            Part::Request => REQUEST_BYTES,
            Part::Payload(header) => header.length as usize,
        }
    }

    /// Returns whether it is a part of the handshake, before the first request.
    pub(crate) fn is_of_handshake(&self) -> bool
        ensures { result ≡ is_of_handshake self.now }
    {
        match self {
            Part::ClientFlags | Part::Option { .. } | Part::OptionData { .. } => true,
            Part::Request | Part::Payload(_) => false,
        }
    }
}
