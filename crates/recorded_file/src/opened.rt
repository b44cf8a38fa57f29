//! A file that was opened, before its first call.
ghost use Rattle.std.specs.Prelude.{◌≡◌, [], IfOk};

use crate::holes::Holes;
use crate::record::Record;
use crate::{SharedFile, bytes_of};
use blocks::BLOCK_BYTES;
use std::fs::{File, OpenFile, OpenOptions};
use std::io;
use std::marker::Model;
use std::os::unix::fs::FileExt;
use std::rt::Files;

/// A file that was opened, and whose path clauses know. It takes no memory for that.
///
/// The system's calls promise nothing to a proof. That `open` opens the very path that it notes is to be read here, and nowhere else.
#[derive(Drop)]
pub struct OpenedFile<F> {
    pub(crate) file: F,
    pub(crate) holes: Holes,
    pub(crate) name: Record,
}

impl<F> Model for OpenedFile<F> {
    ghost use Rattle.recorded_file.specs.Calls.{FilePath, path_in};

    ghost Value = { FilePath };

    ghost view = { λ f. record { path = path_in f.name.events } };
}

impl<F> OpenedFile<F> {
    /// Takes a file whose path nobody knows.
    pub fn of(file: F) -> OpenedFile<F>
        ensures { result.path ≡ [] }
    {
        OpenedFile {
            file,
            holes: Holes::unknown(),
            name: Record::new(),
        }
    }
}

impl OpenedFile<File> {
    /// Opens the file at `path` for reading and writing, and takes a second handle on it, which syncs it while another thread has the
    /// first. Creates no file, and changes none.
    pub fn open<H: Files<File = File>>(
        rt: &H,
        path: &str,
    ) -> io::Result<(OpenedFile<File>, SharedFile<File>)>
        ensures path { IfOk result (λ opened. opened.0.path ≡ path.now) }
        ensures same { IfOk result (λ opened. opened.1.path ≡ path.now) }
    {
        let file = OpenOptions::new().read(true).write(true).open(rt, path)?;
        let shared = file.try_clone()?;
        let holes = Holes::of(&file);
        let (mut name, mut same) = (Record::new(), Record::new());
        name.note(&[], path.as_bytes());
        same.note(&[], path.as_bytes());
        Ok((
            OpenedFile { file, holes, name },
            SharedFile::new(shared, same),
        ))
    }

    /// Returns how many bytes the file has: a regular file by its length, a block device by where it ends.
    pub fn bytes(&self) -> io::Result<u64> {
        bytes_of(&self.file)
    }

    /// Checks that a block device takes writes, by writing its first block as it is: the system opens one that is only readable, too.
    pub fn check_writable(&self) -> io::Result<()> {
        if self.file.metadata()?.is_file() {
            return Ok(());
        }
        let mut first = [0u8; BLOCK_BYTES];
        self.file.read_exact_at(&mut first, 0)?;
        self.file.write_all_at(&first, 0)
    }
}
