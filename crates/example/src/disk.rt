//! A disk of the program's own: whatever keeps blocks can be a node's disk if it is a `Store`.
ghost use Rattle.std.specs.Prelude.{if◌then◌else◌, is_some};

use blocks::{Block, MemStore, Range, Store, StoreFault};

/// A disk in memory that loses its cable once: some writes pass, the next one fails and changes nothing, and those
/// after it pass.
#[derive(Drop)]
pub(crate) struct LooseDisk {
    pub(crate) disk: MemStore,
    // How many writes pass before the fault; `None` after it.
    pub(crate) passes: Option<u64>,
}

impl Store for LooseDisk {
    ghost contents = { λ s. s.disk };

    ghost faults = { λ s. if is_some s.passes then 0 else 1 };

    fn blocks(&self) -> u32 {
        self.disk.blocks()
    }

    fn write(&mut self, range: Range, bytes: &[u8]) -> Result<(), StoreFault> {
        match self.passes {
            Some(0) => {
                self.passes = None;
                return Err(StoreFault);
            }
            Some(passes) => self.passes = Some(passes - 1),
            None => {}
        }
        self.disk.write(range, bytes)
    }

    fn read(&mut self, block: Block, buffer: &mut [u8]) -> Result<(), StoreFault> {
        self.disk.read(block, buffer)
    }
}
