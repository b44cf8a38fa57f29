//! A look at the metadata file of the local image, for the map of the device.
use blocks::EXTENT_BLOCKS;
use serve_page::{CellState, DeviceMap};
use std::alloc::Global;
use std::fs::File;
use std::io;
use std::io::ErrorKind;
use std::os::unix::fs::FileExt;

/// The entries that are read at a time, of a byte each. A file has room for a multiple of this.
const ENTRIES: usize = 4096;

/// The marks of an extent, of a byte each.
const MARKS: usize = EXTENT_BLOCKS as usize;

/// The most blocks whose marks are read: 14 MiB of a file.
const MOST_MARKS: u32 = 14 << 20;

/// The metadata file of the local image.
#[derive(Drop)]
pub struct MapFile {
    /// The file, if it could be opened for reading.
    pub file: Option<File>,
    /// Where the entries of the extents begin, in bytes, and where the marks of the blocks do.
    pub entries_at: u64,
    pub marks_at: u64,
}

impl MapFile {
    /// Reads the map of a device of so many blocks, as the file says now. The server may write to it meanwhile: each byte counts for itself. An
    /// error if the file could not be opened or read, or there is no memory.
    pub(crate) fn read(&self, alloc: Global, blocks: u32) -> io::Result<DeviceMap> {
        let Some(file) = &self.file else {
            return Err(io::Error::from(ErrorKind::NotFound));
        };
        let has_marks = blocks <= MOST_MARKS;
        let extents = blocks.div_ceil(MARKS as u32);
        let mut map = DeviceMap::new(alloc, extents, has_marks);
        let mut entries = [0u8; ENTRIES];
        for extent in 0..extents {
            let index = extent as usize % ENTRIES;
            if index == 0 {
                let at = self.entries_at.saturating_add(u64::from(extent));
                file.read_exact_at(&mut entries, at)?;
            }
            let is_active = entries.get(index) != Some(&0);
            let is_marked = has_marks && self.has_mark(file, extent, blocks)?;
            map.note(CellState::of_extent(is_active, is_marked))?;
        }
        Ok(map)
    }

    // Returns whether a block of an extent is marked. The file ends behind the mark of the last block.
    fn has_mark(&self, file: &File, extent: u32, blocks: u32) -> io::Result<bool> {
        let mut marks = [0u8; MARKS];
        let first = extent.saturating_mul(MARKS as u32);
        let count = (blocks.saturating_sub(first) as usize).min(MARKS);
        let Some(marks) = marks.get_mut(..count) else {
            return Ok(false);
        };
        file.read_exact_at(marks, self.marks_at.saturating_add(u64::from(first)))?;
        Ok(marks.iter().any(|mark| *mark != 0))
    }
}
