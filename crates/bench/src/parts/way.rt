//! A write's way through the parts of a primary under protocol C.
ghost use Rattle.std.specs.Prelude.{Contains, ◌≡◌, ◌<◌, ◌≤◌, IsSomeAnd, OnOk, true, false};
ghost use Rattle.transferlog.specs.Ring.{write_at};
ghost use Rattle.transferlog.specs.declared.local.Local.TheVariants.{Waiting};

use activitylog::ActivityLog;
use bitmap::Bitmap;
use blocks::{Block, EXTENT_BLOCKS, Extent, Protocol, Range, Refusal};
use bytes::Bytes;
use overlap::Held;
use std::alloc::Global;
use std::collections::VecDeque;
use transferlog::{Accepted, AckedWrite, Local, PeerAck, Released, TransferLog};

/// The distance from one write's block to the next one's: odd, so that each block of the device has its turn.
const STRIDE: u64 = 100_003;

/// The most writes that a transfer log accepts.
const MOST_WRITES: u64 = 1_048_576;

/// A stream with this many items takes no further write: the log requires that there are fewer.
const MOST_ITEMS: u32 = 4_294_967_290;

/// The most unreleased writes of an extent: no more than the log accepts.
const MOST_EXTENT_WRITES: u32 = 1_048_576;

/// Counts of the writes.
#[derive(Clone, Copy)]
pub(crate) struct Counts {
    /// How many were completed.
    pub(crate) completed: u64,
    /// How many epochs were acknowledged.
    pub(crate) epochs: u64,
    /// How many were released.
    pub(crate) released: u64,
    /// How many of the released ones cleared their block's mark.
    pub(crate) cleared: u64,
}

/// The parts, and the writes of one block each that go through them. As many writes as asked are in flight, that is, in
/// the log. The newest half is open, and at most one on each block. The oldest epoch is acknowledged once there is no
/// room for another write.
#[derive(Drop)]
pub(crate) struct Way {
    blocks: u32,
    last_block: u64,
    in_flight: u32,
    most_open: u64,
    held: Held,
    log: TransferLog,
    activity: ActivityLog,
    bitmap: Bitmap,
    contents: Bytes,
    first_open: u64,
    in_last_epoch: u32,
    // The unacknowledged barriers, with their epochs' sizes.
    barriers: VecDeque<(u32, u32)>,
    counts: Counts,
}

/// Checks what a part requires of its caller. `UnknownJob` (16) unless that holds.
fn owed(holds: bool) -> Result<(), Refusal>
    ensures { OnOk result (holds ≡ true) }
{
    if holds {
        Ok(())
    } else {
        Err(Refusal::UnknownJob)
    }
}

/// Returns whether the write may be sent.
fn may_be_sent(log: &TransferLog, number: u64) -> bool
    ensures { result ≡ true → IsSomeAnd (write_at number log.now.state.writes) (λ w. (w.linked ≡ true) × (w.sent ≡ false)) }
{
    match log.get(number) {
        Some(write) => write.is_linked() && !write.is_sent(),
        None => false,
    }
}

/// Returns whether the local disk has yet to do the write.
fn is_waiting(log: &TransferLog, number: u64) -> bool
    ensures { result ≡ true → IsSomeAnd (write_at number log.now.state.writes) (λ w. w.local ≡ Waiting) }
{
    match log.get(number) {
        Some(write) => write.local() == Local::Waiting,
        None => false,
    }
}

/// Records that the local disk has the write. `UnknownJob` (16) unless the disk has yet to do it.
fn store(log: &mut TransferLog, number: u64) -> Result<Option<u32>, Refusal> {
    owed(is_waiting(log, number))?;
    Ok(log.local_done(number))
}

/// Records that the peer's disk has the write. `UnknownJob` (16) if the write has no place in a stream.
fn answer(log: &mut TransferLog, number: u64) -> Result<Option<u32>, Refusal> {
    let named = named(log, number).ok_or(Refusal::UnknownJob)?;
    log.acked(PeerAck::Written, named)
}

/// Returns how the peer names the write.
fn named(log: &TransferLog, number: u64) -> Option<AckedWrite> {
    let write = log.get(number)?;
    let home = write.home()?;
    let range = write.range();
    Some(AckedWrite {
        number,
        place: home.place(),
        first: range.first.0,
        count: range.count,
    })
}

/// Records that the write's frame is in the link's queue. `UnknownJob` (16) unless it is linked and not sent yet.
fn send(log: &mut TransferLog, number: u64) -> Result<Option<u32>, Refusal> {
    owed(may_be_sent(log, number))?;
    Ok(log.sent(number))
}

/// Accepts a write. `JournalFull` (5) and `StreamFull` (6) if there were too many, `UnknownJob` (16) if the log has no
/// such block; otherwise returns what the log returns.
fn accept(log: &mut TransferLog, range: Range, contents: Bytes) -> Result<Accepted, Refusal>
    requires { range.count ≡ 1 }
{
    if log.accepted() >= MOST_WRITES {
        return Err(Refusal::JournalFull);
    }
    if log.places() >= MOST_ITEMS {
        return Err(Refusal::StreamFull);
    }
    owed((range.first.0 as usize) < log.blocks())?;
    log.accept(range, contents)
}

/// Begins a write in its extent. `UnknownJob` (16) if the extent has too many.
fn begin(activity: &mut ActivityLog, extent: Extent) -> Result<(), Refusal> {
    owed(activity.writes(extent) < MOST_EXTENT_WRITES)?;
    activity.begin(extent)
}

/// Ends a released write of the extent. `UnknownJob` (16) if the extent has none.
fn end(activity: &mut ActivityLog, extent: Extent) -> Result<(), Refusal> {
    owed(activity.writes(extent) > 0)?;
    activity.end(extent);
    Ok(())
}

/// Marks the write's block. `BadRange` (1) if the device has no such block.
fn mark(bitmap: &mut Bitmap, range: Range) -> Result<(), Refusal>
    requires { range.count ≡ 1 }
{
    if range.first.0 >= bitmap.len() {
        return Err(Refusal::BadRange);
    }
    bitmap.mark(range);
    Ok(())
}

/// Clears the mark of a released write's block, if the release clears it. Returns whether it does.
fn clear(log: &TransferLog, bitmap: &mut Bitmap, released: &Released) -> bool
    requires { Contains log.now.state.released released.now }
{
    let block = Block(released.first);
    let clears = log.clears(released, block) && block.0 < bitmap.len();
    if clears {
        bitmap.clear(block);
    }
    clears
}

/// Has a write hold its range. `Conflict` (2) if another write holds a block of it.
fn hold(held: &mut Held, number: u64, range: Range) -> Result<(), Refusal> {
    if let Some(holder) = held.conflict(range) {
        return Err(Refusal::Conflict(holder));
    }
    owed(!held.is_held(number))?;
    held.hold(number, range)
}

impl Way {
    /// Makes the parts of a device of `blocks` blocks, a power of 2. There is no write yet.
    pub(crate) fn new(alloc: Global, in_flight: u32, blocks: u32) -> Result<Way, Refusal>
        requires some_in_flight { 0 < in_flight }
        requires few_blocks { blocks ≤ 262144 }
    {
        let contents = Bytes::copy_from_slice(alloc, b"contents of a write")?;
        let bitmap = Bitmap::unmarked(alloc, u64::from(blocks))?;
        let activity = ActivityLog::new(alloc, 1024)?;
        let mut log = TransferLog::new(alloc, Protocol::C, blocks, 20_000, in_flight)?;
        log.connect(1);
        Ok(Way {
            blocks,
            last_block: u64::from(blocks).saturating_sub(1),
            in_flight,
            most_open: u64::from((in_flight / 2).min(blocks)),
            held: Held::new(alloc),
            log,
            activity,
            bitmap,
            contents,
            first_open: 1,
            in_last_epoch: 0,
            barriers: VecDeque::new(alloc),
            counts: Counts {
                completed: 0,
                epochs: 0,
                released: 0,
                cleared: 0,
            },
        })
    }

    /// Returns the counts of the writes so far.
    pub(crate) fn counts(&self) -> Counts {
        self.counts
    }

    /// Takes another write through the parts; if there are as many as may be, the oldest ones go on first.
    pub(crate) fn write(&mut self) -> Result<(), Refusal> {
        if self
            .log
            .accepted()
            .saturating_sub(self.first_open)
            .saturating_add(1)
            >= self.most_open
        {
            self.complete()?;
        }
        if self.log.len() >= self.in_flight {
            self.acknowledge()?;
        }
        self.submit()
    }

    fn submit(&mut self) -> Result<(), Refusal> {
        let number = self.log.accepted().saturating_add(1);
        let first = number.wrapping_mul(STRIDE) & self.last_block;
        let range = Range::new(first, 1, self.blocks)?;
        hold(&mut self.held, number, range)?;
        begin(&mut self.activity, Extent(first / EXTENT_BLOCKS))?;
        let accepted = accept(&mut self.log, range, self.contents.clone()?)?;
        self.in_last_epoch = self.in_last_epoch.saturating_add(1);
        self.note_barrier(accepted.barrier)?;
        mark(&mut self.bitmap, range)?;
        let barrier = send(&mut self.log, number)?;
        self.note_barrier(barrier)
    }

    // Records that the local disk and the peer's have the oldest open write, which completes it.
    fn complete(&mut self) -> Result<(), Refusal> {
        let number = self.first_open;
        let barrier = store(&mut self.log, number)?;
        self.note_barrier(barrier)?;
        let barrier = answer(&mut self.log, number)?;
        self.note_barrier(barrier)?;
        self.held.release(number);
        self.counts.completed = self.counts.completed.saturating_add(1);
        self.first_open = number.saturating_add(1);
        Ok(())
    }

    // Records a barrier, which ends the last epoch.
    fn note_barrier(&mut self, barrier: Option<u32>) -> Result<(), Refusal> {
        let Some(number) = barrier else {
            return Ok(());
        };
        self.barriers.push_back((number, self.in_last_epoch))?;
        self.in_last_epoch = 0;
        Ok(())
    }

    // Acknowledges the oldest barrier as the peer does, and takes what is released out of the other parts too.
    fn acknowledge(&mut self) -> Result<(), Refusal> {
        let Some((number, size)) = self.barriers.pop_front() else {
            return Err(Refusal::NothingThere);
        };
        self.log.barrier_acked(number, size)?;
        self.counts.epochs = self.counts.epochs.saturating_add(1);
        for released in self.log.released() {
            if clear(&self.log, &mut self.bitmap, released) {
                self.counts.cleared = self.counts.cleared.saturating_add(1);
            }
            end(&mut self.activity, Extent(released.first / EXTENT_BLOCKS))?;
            self.counts.released = self.counts.released.saturating_add(1);
        }
        Ok(())
    }
}
