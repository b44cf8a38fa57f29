//! What the status page shows beside the reports of the nodes.
use crate::map::MapFile;
use serve_page::MetadataWrites;
use std::alloc::{AllocError, Global};
use std::sync::Arc;
use std::sync::atomic::{AtomicU64, Ordering};

/// What the status page shows beside the reports of the nodes.
#[derive(Drop)]
pub struct Shown {
    /// The name of the server, if it has one.
    pub name: Option<String>,
    /// How many writes the metadata of each image got.
    pub local_metadata: CountedWrites,
    pub peer_metadata: CountedWrites,
    /// The metadata file of the local image, if there is one.
    pub map: Option<MapFile>,
}

impl Shown {
    /// Returns what there is to show of a server without a name and without metadata. `AllocError` if there is no memory.
    pub fn nothing(alloc: Global) -> Result<Shown, AllocError> {
        Ok(Shown {
            name: None,
            local_metadata: CountedWrites::new(alloc)?,
            peer_metadata: CountedWrites::new(alloc)?,
            map: None,
        })
    }
}

/// How many writes the metadata of an image got, counted by whoever writes it.
#[derive(Drop)]
pub struct CountedWrites {
    /// Those to the entries of the active extents.
    pub activity_log: Arc<AtomicU64, Global>,
    /// Those to the marks of the blocks.
    pub bitmap: Arc<AtomicU64, Global>,
}

impl CountedWrites {
    // Returns counts of no write.
    fn new(alloc: Global) -> Result<CountedWrites, AllocError> {
        Ok(CountedWrites {
            activity_log: counter(alloc)?,
            bitmap: counter(alloc)?,
        })
    }

    /// Returns how many there are now.
    pub(crate) fn now(&self) -> MetadataWrites {
        MetadataWrites {
            activity_log: self.activity_log.load(Ordering::SeqCst),
            bitmap: self.bitmap.load(Ordering::SeqCst),
        }
    }
}

// Returns a counter at 0.
fn counter(alloc: Global) -> Result<Arc<AtomicU64, Global>, AllocError> {
    match Arc::new(alloc, AtomicU64::new(0)) {
        Ok(counter) => Ok(counter),
        Err(_) => Err(AllocError {}),
    }
}
