//! The turns of the primary's threads.
ghost use Rattle.std.specs.Prelude.{◌≡◌, true, false};
ghost use Rattle.kept_nodes.specs.Kept.{is_broken};
ghost use Rattle.model.specs.Primary.{PrimaryHistory};
ghost use Rattle.session_nodes.specs.Primaries.{PrimaryHas, PrimaryGoesOn, PrimaryRuns};
ghost use Rattle.session_nodes.specs.Queries.{closed_since};

use crate::KeptPrimary;
use blocks::{Refusal, Store};
use link::{FrameIn, FrameOut};
use metadata::StableFile;
use session_api::{PrimaryRole, STEPS, TURN_WRITES, Turn};
use session_nodes::Beginning;

impl<
    B: Beginning,
    O: FrameOut + Drop,
    I: FrameIn + Drop,
    S: Store + Drop,
    F: StableFile,
> KeptPrimary<B, O, I, S, F> {
    /// Does up to `STEPS` steps of the node, and up to `TURN_WRITES` writes to its disk among them. Each step is of the role or, if the role
    /// has none, of any other role.
    pub fn turn(&mut self, role: PrimaryRole) -> Turn
        ensures runs { is_broken self.new.metadata ≡ false → PrimaryRuns self.old.node self.new.node }
        ensures stays { is_broken self.old.metadata ≡ true → is_broken self.new.metadata ≡ true }
        ensures closed { (g h : PrimaryHistory) → PrimaryHas self.old.node g → PrimaryHas self.new.node h → result.closed ≡ closed_since g h }
        ensures goes_on { PrimaryGoesOn self.old.node self.new.node }
    {
        let was_open = self.node.node().is_open();
        let mut turn = Turn::NOTHING;
        for _ in 0..STEPS {
            if !self.advance(role, &mut turn) {
                break;
            }
            turn.worked = true;
        }
        if was_open && !self.node.node().is_open() {
            turn.closed = Some(self.node.node().connection_number());
            turn.wakes_writers = true;
        }
        turn
    }

    // Does a step of the role or, if it has none, of another one. Returns whether there was one.
    fn advance(&mut self, role: PrimaryRole, turn: &mut Turn) -> bool
        ensures runs { is_broken self.new.metadata ≡ false → PrimaryRuns self.old.node self.new.node }
        ensures stays { is_broken self.old.metadata ≡ true → is_broken self.new.metadata ≡ true }
        ensures closed { turn.new.closed ≡ turn.old.closed }
        ensures goes_on { PrimaryGoesOn self.old.node self.new.node }
    {
        if self.step(role, turn) {
            return true;
        }
        self.help(role, turn)
    }

    // Does a step of the first role that has one, but for `role`, which has none. Returns whether there was one.
    fn help(&mut self, role: PrimaryRole, turn: &mut Turn) -> bool
        ensures runs { is_broken self.new.metadata ≡ false → PrimaryRuns self.old.node self.new.node }
        ensures stays { is_broken self.old.metadata ≡ true → is_broken self.new.metadata ≡ true }
        ensures closed { turn.new.closed ≡ turn.old.closed }
        ensures goes_on { PrimaryGoesOn self.old.node self.new.node }
    {
        if self.step_of_other(PrimaryRole::Sender, role, turn) {
            return true;
        }
        if self.step_of_other(PrimaryRole::Receiver, role, turn) {
            return true;
        }
        if self.step_of_other(PrimaryRole::Disk, role, turn) {
            return true;
        }
        self.step_of_other(PrimaryRole::Resync, role, turn)
    }

    // Does a step of a role, unless it is `tried`. Returns whether there was one.
    fn step_of_other(&mut self, role: PrimaryRole, tried: PrimaryRole, turn: &mut Turn) -> bool
        ensures runs { is_broken self.new.metadata ≡ false → PrimaryRuns self.old.node self.new.node }
        ensures stays { is_broken self.old.metadata ≡ true → is_broken self.new.metadata ≡ true }
        ensures closed { turn.new.closed ≡ turn.old.closed }
        ensures goes_on { PrimaryGoesOn self.old.node self.new.node }
    {
        if role == tried {
            return false;
        }
        self.step(role, turn)
    }

    // Does a step of a role. Returns whether there was one.
    fn step(&mut self, role: PrimaryRole, turn: &mut Turn) -> bool
        ensures runs { is_broken self.new.metadata ≡ false → PrimaryRuns self.old.node self.new.node }
        ensures stays { is_broken self.old.metadata ≡ true → is_broken self.new.metadata ≡ true }
        ensures closed { turn.new.closed ≡ turn.old.closed }
        ensures goes_on { PrimaryGoesOn self.old.node self.new.node }
    {
        match role {
            PrimaryRole::Sender if turn.link_full => false,
            PrimaryRole::Sender => match self.send() {
                Ok(done) => {
                    turn.pushed = true;
                    turn.wakes_writers |= done.completed.is_some();
                    true
                }
                Err(refusal) => {
                    turn.link_full = refusal == Refusal::LinkFull;
                    false
                }
            },
            PrimaryRole::Receiver => {
                let taken = self.ack_in();
                turn.wakes_writers |= taken.is_ok();
                taken.is_ok()
            }
            PrimaryRole::Disk if turn.writes >= TURN_WRITES => false,
            PrimaryRole::Disk => {
                let is_written = self.write_next().is_ok();
                turn.wakes_writers |= is_written;
                if is_written {
                    turn.writes += 1;
                }
                is_written
            }
            PrimaryRole::Resync => self.resync_next().is_ok(),
        }
    }
}
