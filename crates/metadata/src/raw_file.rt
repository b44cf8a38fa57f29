//! The calls of a file that the metadata makes. No contract says what they do.
use std::fs::File;
use std::io;
use std::os::unix::fs::FileExt;

/// A file whose calls no contract speaks of, as one of the operating system. `MetadataFile` keeps a record of them.
pub trait RawFile: Drop {
    /// Returns how many bytes the file has.
    fn len(&mut self) -> io::Result<u64>;

    /// Fills the buffer from `at` on, or fails.
    fn read_exact_at(&mut self, at: u64, buffer: &mut [u8]) -> io::Result<()>;

    /// Writes all the bytes at `at`, or fails.
    fn write_all_at(&mut self, at: u64, bytes: &[u8]) -> io::Result<()>;

    /// Cuts the file to this many bytes, or fills it up with zeros.
    fn set_len(&mut self, len: u64) -> io::Result<()>;

    /// Returns once the file's bytes and its length are on the disk.
    fn sync(&mut self) -> io::Result<()>;
}

impl RawFile for File {
    fn len(&mut self) -> io::Result<u64> {
        Ok(self.metadata()?.len())
    }

    fn read_exact_at(&mut self, at: u64, buffer: &mut [u8]) -> io::Result<()> {
        FileExt::read_exact_at(self, buffer, at)
    }

    fn write_all_at(&mut self, at: u64, bytes: &[u8]) -> io::Result<()> {
        FileExt::write_all_at(self, bytes, at)
    }

    fn set_len(&mut self, len: u64) -> io::Result<()> {
        File::set_len(self, len)
    }

    fn sync(&mut self) -> io::Result<()> {
        self.sync_data()
    }
}
