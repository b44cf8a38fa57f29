//! Consequences of a step of the log: a barrier, and the end of a resync.
ghost use Rattle.std.specs.Prelude.{◌≡◌, ◌≤◌, IfSome};
ghost use Rattle.primary_protocol.specs.Core.{following};
ghost use Rattle.primary_core.specs.Kept.{owing};

use crate::item::ItemKind;
use crate::state::PrimaryCore;
use blocks::{Done, What};

impl PrimaryCore {
    /// Applies what the log's step reported, then appends the barrier that the step brought, then ends the resync
    /// if no block is marked and none is under way. It takes no memory.
    pub(crate) fn finish_step(&mut self, what: What, barrier: Option<u32>) -> Done
        requires room { IfSome barrier (λ _. owing barrier self.old.state.end self.old.state.log ≤ self.old.stream_room) }
        ensures { (result, self.new.state) ≡ following what barrier self.old.state }
    {
        self.apply_log_report();
        let completed = self.first_completed();
        if let Some(number) = barrier {
            self.append(ItemKind::Barrier(number));
        }
        let synced = self.is_over();
        if synced {
            self.end_resync();
        }
        Done {
            what,
            completed,
            barrier,
            synced,
        }
    }
}
