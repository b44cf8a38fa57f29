//! Applying the completions and releases that the last log call reported.
ghost use Rattle.std.specs.Prelude.{Contains, ◌≡◌, ◌&&◌, ◌+◌, ◌≤◌, length, option_map, slice_get};
ghost use Rattle.bitmap.specs.Marks.{marked};
ghost use Rattle.transferlog.specs.Log.{clears};
ghost use Rattle.primary_protocol.specs.Core.{entering, freeing, leaving, reporting, unmarking};
ghost use Rattle.std.specs.List.{AllByRecursion};
ghost use Rattle.activitylog.specs.Activity.{ended};
ghost use Rattle.model.specs.Contents.{extent_of};
ghost use Rattle.primary_core.specs.Kept.{Cleared, LiesInside};

use crate::entry::{Fate, JournalEntry, set_fate};
use crate::state::PrimaryCore;
use activitylog::ActivityLog;
use bitmap::Bitmap;
use blocks::Block;
use overlap::Held;
use transferlog::{Completed, Released, TransferLog};

impl PrimaryCore {
    /// Applies what the last call of the log reported: completions go into the journal and free their ranges;
    /// releases leave the activity log and clear marks.
    pub(crate) fn apply_log_report(&mut self)
        ensures state { self.new.state ≡ reporting self.old.state }
        ensures room { self.new.stream_room ≡ self.old.stream_room }
    {
        enter(self.log.completed(), &mut self.entries);
        free(self.log.completed(), &mut self.held);
        leave(self.log.released(), &mut self.activity);
        unmark(&self.log, &mut self.marks);
    }

    /// Returns the first write that the log's last step completed.
    pub(crate) fn first_completed(&self) -> Option<u64>
        ensures { result ≡ option_map (λ c. c.number) (slice_get self.now.state.log.completed 0) }
    {
        let completed = self.log.completed().first()?;
        Some(completed.number)
    }
}

fn enter(completed: &[Completed], entries: &mut [JournalEntry])
    ensures { entries.new ≡ entering completed.now entries.old }
{
    for write in completed {
        set_fate(
            entries,
            write.number,
            Fate::Completed {
                linked: write.linked,
                home: write.home,
            },
        );
    }
}

fn free(completed: &[Completed], held: &mut Held)
    ensures { held.new ≡ freeing completed.now held.old }
{
    for write in completed {
        held.release(write.number);
    }
}

fn leave(released: &[Released], activity: &mut ActivityLog)
    ensures { activity.new ≡ leaving released.now activity.old }
{
    for write in released {
        end(activity, Block(write.first));
    }
}

// Records in the activity log the release of a write that begins at block `first`.
fn end(activity: &mut ActivityLog, first: Block)
    ensures { activity.new ≡ ended (extent_of first.0) activity.old }
{
    if activity.writes(first.extent()) > 0 {
        activity.end(first.extent());
    }
}

fn unmark(log: &TransferLog, marks: &mut Bitmap)
    requires size { length log.now.state.last_writes ≡ length marks.old }
    requires inside { AllByRecursion (LiesInside (length marks.old)) log.now.state.released }
    ensures { marks.new ≡ unmarking log.now.state.released log.now.state.last_writes marks.old }
{
    if marks.count() == 0 {
        return;
    }
    for write in log.released() {
        clear(log, write, marks);
    }
}

// Clears the marks that the release of a write clears.
fn clear(log: &TransferLog, write: &Released, marks: &mut Bitmap)
    requires size { length log.now.state.last_writes ≡ length marks.old }
    requires inside { LiesInside (length marks.old) write.now }
    requires reported { Contains log.now.state.released write.now }
    ensures { Cleared write.now log.now.state.last_writes marks.old marks.new (write.now.first + write.now.count) }
{
    let _small = marks.len();
    for block in write.first..write.first + write.count {
        if clears_mark(log, write, Block(block), marks) {
            marks.clear(Block(block));
        }
    }
}

// Returns whether the block is marked and the release clears its mark. Most blocks are not marked: the log is not asked
// for those.
fn clears_mark(log: &TransferLog, write: &Released, block: Block, marks: &Bitmap) -> bool
    requires { Contains log.now.state.released write.now }
    ensures { result ≡ (marked marks.now block.0 && clears write.now block.0 log.now.state.last_writes) }
{
    marks.is_marked(block) && log.clears(write, block)
}
