//! The metadata of a primary that is measured.
ghost use Rattle.std.specs.Prelude.{◌<◌, ◌≤◌};

use blocks::Tuple;
use kept_nodes::NoFile;
use metadata::{
    AnyBytes, BootId, Header, Identifiers, MemoryFile, Metadata, MetadataFault, MetadataFile,
    SparseBytes, StableFile, Trouble, create,
};
use std::alloc::Global;
use std::fs::OpenOptions;

/// Metadata in memory.
pub(crate) type InMemory = Metadata<MetadataFile<MemoryFile, AnyBytes>>;

/// Metadata in a file.
pub(crate) type OnDisk = Metadata<NoFile>;

const IDENTIFIERS: Identifiers = Identifiers {
    tuple: Tuple {
        current: 1,
        bitmap: 0,
        first_historical: 0,
        second_historical: 0,
    },
    is_primary: true,
    is_consistent: true,
    boot: BootId { high: 0, low: 0 },
    secondary_of: 0,
    clean_end: None,
};

/// Returns new metadata of a device of this many blocks, in memory.
pub(crate) fn in_memory(alloc: Global, blocks: u32) -> anyhow::Result<InMemory>
    requires some { 0 < blocks }
    requires few { blocks ≤ 262144 }
{
    let file = MemoryFile::new(alloc, &SparseBytes::new(alloc), Trouble::Never)?;
    Ok(made(alloc, MetadataFile::over(file), blocks)?)
}

/// Returns new metadata of a device of this many blocks, in a new file at this path.
pub(crate) fn on_disk(host: &HostRuntime, path: &str, blocks: u32) -> anyhow::Result<OnDisk>
    requires some { 0 < blocks }
    requires few { blocks ≤ 262144 }
{
    let mut options = OpenOptions::new();
    options.read(true).write(true).create_new(true);
    let file = options.open(host, path)?;
    Ok(made(host.alloc(), MetadataFile::over(file), blocks)?)
}

// Creates metadata in an empty file.
fn made<F: StableFile>(alloc: Global, file: F, blocks: u32) -> Result<Metadata<F>, MetadataFault>
    requires some { 0 < blocks }
    requires few { blocks ≤ 262144 }
{
    let header = Header {
        blocks: u64::from(blocks),
        pair: 1,
        node: 2,
    };
    match create(alloc, file, header, &IDENTIFIERS) {
        Ok(metadata) => Ok(metadata),
        Err((fault, _)) => Err(fault),
    }
}
