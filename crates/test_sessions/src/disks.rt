//! Disks of the tests' own, which the threads of a test watch.
ghost use Rattle.std.specs.Prelude.{if◌then◌else◌, is_some};

use blocks::{BLOCK_BYTES, Block, MemStore, Range, Store, StoreFault};
use std::alloc::Global;
use std::process::Abort;
use std::sync::Arc;
use std::sync::atomic::{AtomicBool, AtomicU64, Ordering};
use std::thread;

/// How often a disk that waits looks again before it gives up.
const TURNS: u32 = 100_000;

/// What the threads of a test know of its disks.
#[derive(Drop)]
pub(crate) struct Signals {
    /// Whether the peer's disk has begun a write of block 0.
    pub(crate) began: AtomicBool,
    /// Whether the peer's disk may end the write of block 0 that it has begun.
    pub(crate) may_end: AtomicBool,
    /// Whether the peer's disk gave up waiting.
    pub(crate) gave_up: AtomicBool,
    /// How many writes the peer's disk has done.
    pub(crate) peer_writes: AtomicU64,
}

impl Signals {
    /// Makes signals, none of them set yet.
    pub(crate) fn new() -> Signals {
        Signals {
            began: AtomicBool::new(false),
            may_end: AtomicBool::new(false),
            gave_up: AtomicBool::new(false),
            peer_writes: AtomicU64::new(0),
        }
    }

    /// Makes the same for threads to share.
    pub(crate) fn shared(rt: &impl Abort, alloc: Global) -> Arc<Signals, Global> {
        Arc::new(alloc, Signals::new()).expect(rt, "memory")
    }
}

/// A primary's disk in memory that signals when it has written block 1, if it `opens`.
#[derive(Drop)]
pub(crate) struct SignallingDisk {
    memory: MemStore,
    signals: Arc<Signals, Global>,
    /// Whether the write of block 1 lets the peer's write of block 0 end.
    opens: bool,
}

impl SignallingDisk {
    /// Makes a disk over this memory.
    pub(crate) fn new(
        rt: &impl Abort,
        memory: MemStore,
        signals: &Arc<Signals, Global>,
        opens: bool,
    ) -> SignallingDisk {
        SignallingDisk {
            memory,
            signals: Arc::try_clone(signals).expect(rt, "signals"),
            opens,
        }
    }
}

impl Store for SignallingDisk {
    ghost contents = { λ s. s.memory };

    ghost faults = { λ s. 0 };

    fn blocks(&self) -> u32 {
        self.memory.blocks()
    }

    fn write(&mut self, range: Range, bytes: &[u8]) -> Result<(), StoreFault> {
        self.memory.write(range, bytes)?;
        if self.opens && range.first == Block(1) {
            self.signals.may_end.store(true, Ordering::SeqCst);
        }
        Ok(())
    }

    fn read(&mut self, block: Block, buffer: &mut [u8]) -> Result<(), StoreFault> {
        self.memory.read(block, buffer)
    }
}

/// A secondary's disk in memory whose write of block 0 ends only when it may. If it waits too long, it gives up, once,
/// with a fault.
#[derive(Drop)]
pub(crate) struct GatedDisk {
    memory: MemStore,
    signals: Arc<Signals, Global>,
    /// Set until it gives up, if it waits at all.
    waits: Option<()>,
}

impl GatedDisk {
    /// Makes a disk over this memory.
    pub(crate) fn new(
        rt: &impl Abort,
        memory: MemStore,
        signals: &Arc<Signals, Global>,
        waits: bool,
    ) -> GatedDisk {
        GatedDisk {
            memory,
            signals: Arc::try_clone(signals).expect(rt, "signals"),
            waits: if waits { Some(()) } else { None },
        }
    }

    // Returns whether the write of block 0 may end in time.
    fn may_end(&self) -> bool {
        self.signals.began.store(true, Ordering::SeqCst);
        for _ in 0..TURNS {
            if self.signals.may_end.load(Ordering::SeqCst) {
                return true;
            }
            thread::yield_now();
        }
        self.signals.gave_up.store(true, Ordering::SeqCst);
        false
    }
}

impl Store for GatedDisk {
    ghost contents = { λ s. s.memory };

    ghost faults = { λ s. if is_some s.waits then 0 else 1 };

    fn blocks(&self) -> u32 {
        self.memory.blocks()
    }

    fn write(&mut self, range: Range, bytes: &[u8]) -> Result<(), StoreFault> {
        if self.waits.is_some() && range.first == Block(0) && !self.may_end() {
            self.waits = None;
            return Err(StoreFault);
        }
        self.memory.write(range, bytes)?;
        self.signals.peer_writes.fetch_add(1, Ordering::SeqCst);
        Ok(())
    }

    fn read(&mut self, block: Block, buffer: &mut [u8]) -> Result<(), StoreFault> {
        self.memory.read(block, buffer)
    }
}

/// Makes a disk in memory of eight blocks: if it is numbered, block `n` is filled with `n + 1`, otherwise all are
/// zeros.
pub(crate) fn memory(rt: &impl Abort, alloc: Global, is_numbered: bool) -> MemStore {
    let mut bytes = Vec::with_capacity(alloc, 8 * BLOCK_BYTES).expect(rt, "memory");
    for block in 0..8u8 {
        let byte = if is_numbered { block + 1 } else { 0 };
        bytes
            .extend_from_slice(&[byte; BLOCK_BYTES])
            .expect(rt, "memory");
    }
    MemStore::from_image(bytes).expect(rt, "a disk")
}
