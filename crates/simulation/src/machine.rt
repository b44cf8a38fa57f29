//! What a node's machine keeps.
use crate::disk::{Disk, DiskFile};
use crate::file::{OpenFile, TornFile};
use crate::process::Process;
use blocks::Refusal;
use file_store::{AnyContents, FileStore};
use metadata::{AnyBytes, BootId, MetadataFile};
use recorded_file::OpenedFile;
use std::alloc::{AllocError, Global};
use std::cell::RefCell;
use std::rc::Rc;

/// A node's disk.
pub(crate) type NodeDisk = FileStore<DiskFile, AnyContents>;

/// A node's metadata file.
pub(crate) type NodeFile = MetadataFile<OpenFile, AnyBytes>;

/// What the machine of a node keeps: its disk, its metadata file, the process that runs the node, and the id of the system.
#[derive(Drop)]
pub(crate) struct Machine {
    alloc: Global,
    pub(crate) disk: Rc<RefCell<Disk>>,
    pub(crate) file: Rc<RefCell<TornFile>>,
    pub(crate) process: Rc<Process>,
    pub(crate) boot: BootId,
}

impl Machine {
    /// Returns a machine that has a disk which was never written, and an empty file. An error if there is no memory.
    pub(crate) fn new(
        alloc: Global,
        process: Rc<Process>,
        number: u64,
    ) -> Result<Machine, AllocError> {
        Ok(Machine {
            alloc,
            disk: Rc::new(alloc, RefCell::new(Disk::new(alloc)))?,
            file: Rc::new(alloc, RefCell::new(TornFile::new(alloc)))?,
            process,
            boot: BootId {
                high: number,
                low: 1,
            },
        })
    }

    /// Returns the disk for a node.
    pub(crate) fn node_disk(&self, blocks: u32) -> Result<NodeDisk, Refusal> {
        let file = DiskFile {
            disk: shared(&self.disk)?,
            process: shared(&self.process)?,
        };
        Ok(FileStore::over(OpenedFile::of(file), blocks))
    }

    /// Returns the metadata file, opened.
    pub(crate) fn node_file(&self) -> Result<NodeFile, Refusal> {
        Ok(MetadataFile::over(OpenFile {
            alloc: self.alloc,
            file: shared(&self.file)?,
            process: shared(&self.process)?,
        }))
    }

    /// Starts the system anew.
    pub(crate) fn restart_system(&mut self) {
        self.boot.low = self.boot.low.saturating_add(1);
    }
}

/// Returns another owner of a value.
pub(crate) fn shared<T: Drop>(value: &Rc<T>) -> Result<Rc<T>, Refusal> {
    Ok(value.clone()?)
}
