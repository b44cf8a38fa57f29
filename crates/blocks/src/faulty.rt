//! A disk that fails in the calls for which a test arms it.
ghost use Rattle.std.specs.Prelude.{◌≡◌, ◌+◌, ◌*◌, ◌<◌, ◌≤◌, length, slice_get, Option, None, Some, OnOk, OnErr, is_err};
ghost use Rattle.blocks.specs.Contents.{blocks_of, IsTorn};
ghost use Rattle.blocks.specs.Faults.{written, write_fails, after_read, read_fails, is_steady};
ghost use Rattle.blocks.specs.declared.block.TheConstants.{BLOCK_BYTES};

use crate::ghost_count::GhostCount;
use crate::{BLOCK_BYTES, Block, MemStore, Range, Store, StoreFault};
use std::marker::Model;

/// A disk in memory that fails only in the calls for which it is armed, and counts its faults. None of its calls
/// takes memory.
#[derive(Drop)]
pub struct FaultStore {
    disk: MemStore,
    faults: GhostCount,
    write_arming: Option<WriteArming>,
    // How many reads pass before one fails.
    read_arming: Option<u64>,
}

/// After `passes` writes that succeed, the next one writes only its first `kept` blocks and fails.
#[derive(Clone, Copy)]
struct WriteArming {
    passes: u64,
    kept: u64,
}

impl Model for FaultStore {
    ghost use Rattle.std.specs.Option.{option_map};
    ghost use Rattle.blocks.specs.Faults.{FaultState, WriteArming};

    ghost Value = { FaultState };

    ghost view = { λ s. record {
      disk = s.disk;
      faults = s.faults.count;
      write_arming = option_map (λ a. record { passes = a.passes; kept = a.kept }) s.write_arming;
      read_arming = s.read_arming;
    } };
}

impl FaultStore {
    /// Returns a disk on which no fault is armed.
    pub fn new(disk: MemStore) -> FaultStore
        ensures { result ≡ record { disk = disk; faults = 0; write_arming = None; read_arming = None } }
    {
        FaultStore {
            disk,
            faults: GhostCount::new(),
            write_arming: None,
            read_arming: None,
        }
    }

    /// Returns the bytes of a block, in the disk's buffer. This is not a read, so it never fails.
    pub fn block(&self, block: Block) -> &[u8]
        requires inside { block.0 < length self.now.disk }
        ensures { slice_get self.now.disk block.0 ≡ Some result.now }
    {
        self.disk.block(block)
    }

    /// Makes the next write fail: it writes only its first `kept` blocks, all if it has fewer.
    pub fn arm(&mut self, kept: u64)
        ensures { self.new ≡ record self.old { write_arming = Some (record { passes = 0; kept = kept }) } }
    {
        self.arm_after(0, kept);
    }

    /// Makes the write after the next `passes` ones fail: it writes only its first `kept` blocks, all if it has
    /// fewer. The writes before and after it succeed.
    pub fn arm_after(&mut self, passes: u64, kept: u64)
        ensures { self.new ≡ record self.old { write_arming = Some (record { passes = passes; kept = kept }) } }
    {
        self.write_arming = Some(WriteArming { passes, kept });
    }

    /// Makes the next read fail.
    pub fn arm_read(&mut self)
        ensures { self.new ≡ record self.old { read_arming = Some 0 } }
    {
        self.arm_read_after(0);
    }

    /// Makes the read after the next `passes` ones fail. The reads before and after it succeed.
    pub fn arm_read_after(&mut self, passes: u64)
        ensures { self.new ≡ record self.old { read_arming = Some passes } }
    {
        self.read_arming = Some(passes);
    }
}

impl Store for FaultStore {
    ghost contents = { λ s. s.disk };

    ghost faults = { λ s. s.faults };

    ghost steady = { is_steady };

    fn blocks(&self) -> u32 {
        self.disk.blocks()
    }

    fn write(&mut self, range: Range, bytes: &[u8]) -> Result<(), StoreFault>
        requires inside { range.first.0 + range.count ≤ length self.old.disk }
        requires whole { length bytes.now ≡ BLOCK_BYTES * range.count }
        ensures fails { is_err result ≡ write_fails self.old.write_arming }
        ensures after { self.new ≡ written range.first.0 (blocks_of BLOCK_BYTES bytes.now) self.old }
        ensures torn { OnErr result (IsTorn self.old.disk range.first.0
            (blocks_of BLOCK_BYTES bytes.now) self.new.disk) }
        ensures size { length self.new.disk ≡ length self.old.disk }
    {
        let Some(arming) = self.write_arming else {
            return self.disk.write(range, bytes);
        };
        if arming.passes > 0 {
            self.write_arming = Some(WriteArming {
                passes: arming.passes - 1,
                kept: arming.kept,
            });
            return self.disk.write(range, bytes);
        }
        let kept = arming.kept.min(range.count);
        self.write_arming = None;
        self.faults = self.faults.more();
        self.disk
            .overwrite(range.first, &bytes[..kept as usize * BLOCK_BYTES]);
        Err(StoreFault)
    }

    fn read(&mut self, block: Block, buffer: &mut [u8]) -> Result<(), StoreFault>
        requires inside { block.0 < length self.old.disk }
        requires whole { length buffer.old ≡ BLOCK_BYTES }
        ensures fails { is_err result ≡ read_fails self.old.read_arming }
        ensures read { OnOk result (slice_get self.old.disk block.0 ≡ Some buffer.new) }
        ensures after { self.new ≡ after_read self.old }
    {
        match self.read_arming {
            Some(0) => {
                self.read_arming = None;
                self.faults = self.faults.more();
                return Err(StoreFault);
            }
            Some(passes) => self.read_arming = Some(passes - 1),
            None => {}
        }
        self.disk.read(block, buffer)
    }
}
