//! A block whose write failed.
ghost use Rattle.std.specs.Prelude.{◌≡◌, ◌<◌, ◌∷◌};
ghost use Rattle.recorded_file.specs.Calls.{written};
ghost use Rattle.file_store.specs.declared.remains.Remains.TheVariants.{New, Old, Mixed};

use blocks::{BLOCK_BYTES, Block};
use recorded_file::RecordedFile;
use std::os::unix::fs::FileExt;

/// The bytes of a sector, which a disk writes whole or not at all.
const SECTOR_BYTES: usize = 512;

/// What a file has of a block whose write failed.
#[derive(Clone, Copy, Debug, PartialEq, Eq)]
pub(crate) enum Remains {
    /// All of its new bytes.
    New,
    /// None of its new sectors, so its old bytes; or zeros alone, as of a place that was never written.
    Old,
    /// Some of both, as far as can be told.
    Mixed,
}

/// Writes a block to the file once more, and returns what the file has if this fails too. A write that is refused, for lack
/// of room for example, may have changed nothing.
pub(crate) fn remains_of<F: FileExt>(
    file: &mut RecordedFile<F>,
    block: Block,
    bytes: &[u8],
) -> Remains
    requires { block.0 < 4294967296 }
    ensures new { result ≡ New → file.new.events ≡ written block.0 bytes.now ∷ file.old.events }
    ensures old { result ≡ Old → file.new.events ≡ file.old.events }
    ensures mixed { result ≡ Mixed → file.new.events ≡ file.old.events }
    ensures path { file.new.path ≡ file.old.path }
{
    let mut found = [0u8; BLOCK_BYTES];
    if file.write(block, bytes).is_ok() {
        return Remains::New;
    }
    match file.read_back(block, bytes, &mut found) {
        Ok(true) => Remains::New,
        Ok(false) if has_new_sector(&found, bytes) => Remains::Mixed,
        Ok(false) => Remains::Old,
        Err(_) => Remains::Mixed,
    }
}

// Returns whether any sector that was found is a new one. In a place without any data, a sector of zeros that is new is there by chance.
fn has_new_sector(found: &[u8], new: &[u8]) -> bool {
    if found.iter().all(|byte| *byte == 0) {
        return false;
    }
    found
        .chunks(SECTOR_BYTES)
        .zip(new.chunks(SECTOR_BYTES))
        .any(|(found, new)| *found == *new)
}
