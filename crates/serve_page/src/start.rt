//! How a server began.
ghost use Rattle.std.specs.Prelude.{◌≡◌};
ghost use Rattle.serve_page.specs.Metrics.{after_text};

use crate::report::BLOCK_KIB;
use std::fmt;

/// What a server found of the one before it, or that there is nothing to find.
#[derive(Clone, Copy, Debug, PartialEq, Eq)]
pub enum StartedAfter {
    /// No metadata is kept.
    NoMetadata,
    /// Neither image had metadata: this is the first start.
    Nothing,
    /// The last server ended as it was told to.
    CleanEnd,
    /// The last server was killed, while its system ran on.
    Kill,
    /// The last server ended with its system.
    PowerLoss,
    /// What the metadata says could not be used, or was of other images, so that all was to be copied.
    Unknown,
}

impl StartedAfter {
    /// Returns the name under which the status page has it.
    pub fn name(self) -> &'static str
        ensures { result.now ≡ after_text self }
    {
        match self {
            StartedAfter::NoMetadata => "no-metadata",
            StartedAfter::Nothing => "first",
            StartedAfter::CleanEnd => "clean",
            StartedAfter::Kill => "killed",
            StartedAfter::PowerLoss => "power-lost",
            StartedAfter::Unknown => "unknown",
        }
    }
}

impl fmt::Display for StartedAfter {
    fn fmt<W: fmt::Write>(&self, f: &mut fmt::Formatter<W>) -> fmt::Result {
        f.write_str(match self {
            StartedAfter::NoMetadata => "no metadata is kept",
            StartedAfter::Nothing => "the images got their metadata",
            StartedAfter::CleanEnd => "the last server ended as it was told to",
            StartedAfter::Kill => "the last server was killed",
            StartedAfter::PowerLoss => "the last server ended with its system",
            StartedAfter::Unknown => "the images did not fit their metadata",
        })
    }
}

/// How a server began: after what, and how many blocks it had to copy then.
#[derive(Clone, Copy, Debug, PartialEq, Eq)]
pub struct ServerStart {
    pub after: StartedAfter,
    pub to_copy: u32,
}

impl ServerStart {
    /// Returns how many KiB it had to copy.
    pub fn kib(self) -> u64 {
        BLOCK_KIB * u64::from(self.to_copy)
    }
}

impl fmt::Display for ServerStart {
    fn fmt<W: fmt::Write>(&self, f: &mut fmt::Formatter<W>) -> fmt::Result {
        write!(f, "start: {}, {} KiB to copy", self.after, self.kib())
    }
}
