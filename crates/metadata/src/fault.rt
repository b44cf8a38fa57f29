//! Why a call of a file or of the metadata failed.
ghost use Rattle.std.specs.Prelude.{◌≡◌};
ghost use Rattle.metadata.specs.declared.fault.MetadataFault.TheVariants.{File, NoMemory};

use std::alloc::AllocError;
use thiserror::Error;

/// Why a call of a file failed.
#[derive(Clone, Copy, Debug, PartialEq, Eq, Error)]
pub enum FileFault {
    #[error("no room on the disk")]
    Full,
    #[error("the file could not be read, written or synced")]
    Failed,
}

/// Why a call of the metadata did nothing, or why a file was refused (this project's rule).
#[derive(Clone, Copy, Debug, PartialEq, Eq, Error)]
pub enum MetadataFault {
    #[error("{0}")]
    File(FileFault),
    #[error("an earlier call of the metadata file failed")]
    Broken,
    #[error("out of memory")]
    NoMemory,
    #[error("the file is not empty")]
    NotEmpty,
    #[error("not a metadata file")]
    NotMetadata,
    #[error("metadata of another version")]
    OtherVersion,
    #[error("the header is damaged")]
    HeaderDamaged,
    #[error("the file has another length than its header says")]
    OtherLength,
    #[error("metadata of a device of another size")]
    OtherBlocks,
    #[error("the identifiers are damaged")]
    IdentifiersDamaged,
}

impl From<FileFault> for MetadataFault {
    ghost from_gives = { λ fault e. e ≡ File fault };

    fn from(fault: FileFault) -> Self {
        MetadataFault::File(fault)
    }
}

impl From<AllocError> for MetadataFault {
    ghost from_gives = { λ _ e. e ≡ NoMemory };

    fn from(_: AllocError) -> Self {
        MetadataFault::NoMemory
    }
}
