//! The errors of a reply.
ghost use Rattle.std.specs.Prelude.{◌≡◌};
ghost use Rattle.nbd.specs.Errors.{number_of, errno_at};

use thiserror::Error;

/// Why a request failed (NBD protocol, "Error values").
#[derive(Clone, Copy, Debug, PartialEq, Eq, Error)]
pub enum Errno {
    #[error("operation not permitted")]
    NotPermitted,
    #[error("input or output error")]
    InputOutput,
    #[error("out of memory")]
    NoMemory,
    #[error("invalid argument")]
    Invalid,
    #[error("no space left on device")]
    NoSpace,
    #[error("value too large")]
    Overflow,
    #[error("operation not supported")]
    NotSupported,
    #[error("server is being shut down")]
    Shutdown,
}

impl Errno {
    /// Returns the error's number in a reply: EPERM 1, EIO 5, ENOMEM 12, EINVAL 22, ENOSPC 28, EOVERFLOW 75, ENOTSUP
    /// 95, ESHUTDOWN 108.
    pub fn number(self) -> u32
        ensures { result ≡ number_of self }
    {
        match self {
            Errno::NotPermitted => 1,
            Errno::InputOutput => 5,
            Errno::NoMemory => 12,
            Errno::Invalid => 22,
            Errno::NoSpace => 28,
            Errno::Overflow => 75,
            Errno::NotSupported => 95,
            Errno::Shutdown => 108,
        }
    }

    /// Returns the error with this number; `None` if no error has it.
    pub fn with_number(number: u32) -> Option<Errno>
        ensures { result ≡ errno_at number }
    {
        match number {
            1 => Some(Errno::NotPermitted),
            5 => Some(Errno::InputOutput),
            12 => Some(Errno::NoMemory),
            22 => Some(Errno::Invalid),
            28 => Some(Errno::NoSpace),
            75 => Some(Errno::Overflow),
            95 => Some(Errno::NotSupported),
            108 => Some(Errno::Shutdown),
            _ => None,
        }
    }
}
