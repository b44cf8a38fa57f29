//! A second handle on a file.
ghost use Rattle.std.specs.Prelude.{◌≡◌, ◌<◌, ◌^◌, ◌-◌};
ghost use Rattle.recorded_file.specs.Calls.{path_in};

use crate::Stretch;
use crate::holes::Holes;
use crate::record::Record;
use std::fs::{File, OpenFile};
use std::io;
use std::marker::Model;

/// A second handle on a file, which makes it durable, and tells where it has data. Threads may share it if they may share the file's type.
#[derive(Drop)]
pub struct SharedFile<F> {
    file: F,
    name: Record,
}

impl<F> Model for SharedFile<F> {
    ghost use Rattle.recorded_file.specs.Calls.{FilePath, path_in};

    ghost Value = { FilePath };

    ghost view = { λ f. record { path = path_in f.name.events } };
}

impl<F> SharedFile<F> {
    pub(crate) fn new(file: F, name: Record) -> SharedFile<F>
        ensures { result.path ≡ path_in name.events }
    {
        SharedFile { file, name }
    }
}

impl<F: OpenFile> SharedFile<F> {
    /// Returns once the medium has each write that the file had taken before this call began, or with the system's error. Promises
    /// nothing about a write that is under way meanwhile.
    pub fn sync(&self) -> io::Result<()> {
        self.file.sync_data()
    }
}

impl SharedFile<File> {
    /// Returns what the file has at this offset, and up to where: `Stretch`. Promises nothing about a write that is under way meanwhile.
    pub fn stretch_at(&self, offset: u64) -> Stretch
        requires { offset < 2 ^ 64 - 1 }
        ensures { offset < result.end }
    {
        Holes::of(&self.file).stretch_at(offset)
    }
}
