//! Writes of the local disk.
ghost use Rattle.std.specs.Prelude.{◌≡◌, ◌+◌, ◌*◌, ◌<◌, ◌≤◌, find, length, option_map, Some, Ok, false, true, MatchResult, IfOk, IsSomeAnd};
ghost use Rattle.blocks.specs.declared.refusal.Refusal.TheVariants.{UnknownJob};
ghost use Rattle.transferlog.specs.Ring.{write_at};
ghost use Rattle.transferlog.specs.Writes.{is_waiting};
ghost use Rattle.transferlog.specs.declared.local.Local.TheVariants.{Waiting};
ghost use Rattle.primary_core.specs.Local.{given_up};
ghost use Rattle.primary_protocol.specs.Transitions.{is_unfinished, local_done, local_fault};

use crate::entry::{Fate, set_fate};
use crate::state::PrimaryCore;
use blocks::{Done, Range, Refusal, What};
use transferlog::{Local, Write};

impl PrimaryCore {
    /// Returns the lowest number of a write that waits for the local disk. It takes constant time.
    pub fn next(&self) -> Option<u64>
        ensures { result ≡ option_map (λ w. w.number) (find is_waiting self.now.state.log.writes) }
    {
        self.log.next_local()
    }

    /// Returns write `number`, which waits for the local disk: its blocks, which lie in the device, and their
    /// bytes. `UnknownJob` (16) if it does not wait for the local disk.
    pub fn start(&self, number: u64) -> Result<&Write, Refusal>
        ensures write { MatchResult result (λ w. (write_at number self.now.state.log.writes ≡ Some w.now) × (w.now.local ≡ Waiting)) (λ e. (e ≡ UnknownJob) × (is_unfinished number self.now.state ≡ false)) }
        ensures unfinished { IfOk result (λ _. is_unfinished number self.now.state ≡ true) }
        ensures inside { IfOk result (λ w. w.now.first + w.now.count ≤ self.now.state.settings.blocks) }
        ensures numbered { IfOk result (λ _. 0 < number) }
        ensures whole { IfOk result (λ w. length w.now.contents ≡ 4096 * w.now.count) }
    {
        match self.log.get(number) {
            Some(write) if write.local() == Local::Waiting => Ok(write),
            _ => Err(Refusal::UnknownJob),
        }
    }

    /// Records that the local disk has done write `number`, which waited for it. It takes no memory.
    pub fn done(&mut self, number: u64) -> Done
        requires { is_unfinished number self.old.state ≡ true }
        ensures { (Ok result, self.new.state) ≡ local_done number self.old.state }
    {
        let barrier = self.log.local_done(number);
        self.finish_step(What::Nothing, barrier)
    }

    /// Records that the local disk failed write `number`, which waited for it: removes its interval, marks its
    /// blocks, and never completes it. It takes no memory.
    pub fn failed(&mut self, number: u64) -> Done
        requires { is_unfinished number self.old.state ≡ true }
        ensures { (Ok result, self.new.state) ≡ local_fault number self.old.state }
    {
        let Ok(write) = self.start(number) else {
            return Done::about(What::Nothing);
        };
        let range = write.range();
        self.give_up(number, range);
        let barrier = self.log.local_fault(number);
        self.finish_step(What::Nothing, barrier)
    }

    // Records write `number` as failed, removes its interval, and marks its blocks.
    fn give_up(&mut self, number: u64, range: Range)
        requires numbered { 0 < number }
        requires inside { range.first.0 + range.count ≤ self.old.state.settings.blocks }
        ensures state { self.new.state ≡ given_up number range.first.0 range.count self.old.state }
        ensures room { self.new.stream_room ≡ self.old.stream_room }
    {
        set_fate(&mut self.entries, number, Fate::Failed);
        self.held.release(number);
        self.marks.mark(range);
    }
}
