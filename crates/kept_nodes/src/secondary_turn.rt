//! The turns of the secondary's threads.
ghost use Rattle.std.specs.Prelude.{◌≡◌, true, false};
ghost use Rattle.kept_nodes.specs.Kept.{is_broken};
ghost use Rattle.model.specs.Secondary.{SecondaryHistory};
ghost use Rattle.session_nodes.specs.Queries.{closed_since_too};
ghost use Rattle.session_nodes.specs.Secondaries.{SecondaryHas, SecondaryRuns};

use crate::KeptSecondary;
use blocks::{Refusal, Store};
use link::{FrameIn, FrameOut};
use metadata::StableFile;
use session_api::{STEPS, SecondaryRole, TURN_WRITES, Turn};
use session_nodes::Beginning;

impl<
    B: Beginning,
    O: FrameOut + Drop,
    I: FrameIn + Drop,
    S: Store + Drop,
    F: StableFile,
> KeptSecondary<B, O, I, S, F> {
    /// Does up to `STEPS` steps of the node, and up to `TURN_WRITES` writes to its disk among them. Each step is of the role or, if the role
    /// has none, of any other role.
    pub fn turn(&mut self, role: SecondaryRole) -> Turn
        ensures runs { is_broken self.new.metadata ≡ false → SecondaryRuns self.old.node self.new.node }
        ensures stays { is_broken self.old.metadata ≡ true → is_broken self.new.metadata ≡ true }
        ensures closed { (g h : SecondaryHistory) → SecondaryHas self.old.node g → SecondaryHas self.new.node h → result.closed ≡ closed_since_too g h }
    {
        let was_open = self.node.node().is_open();
        let mut turn = Turn::NOTHING;
        for _ in 0..STEPS {
            if !self.advance(role, &mut turn) {
                break;
            }
            turn.worked = true;
        }
        if was_open && !self.node.node().is_open() {
            turn.closed = Some(self.node.node().connection_number());
        }
        turn
    }

    // Does a step of the role or, if it has none, of another one. Returns whether there was one.
    fn advance(&mut self, role: SecondaryRole, turn: &mut Turn) -> bool
        ensures runs { is_broken self.new.metadata ≡ false → SecondaryRuns self.old.node self.new.node }
        ensures stays { is_broken self.old.metadata ≡ true → is_broken self.new.metadata ≡ true }
        ensures closed { turn.new.closed ≡ turn.old.closed }
    {
        if self.step(role, turn) {
            return true;
        }
        self.help(role, turn)
    }

    // Does a step of the first role that has one, but for `role`, which has none. Returns whether there was one.
    fn help(&mut self, role: SecondaryRole, turn: &mut Turn) -> bool
        ensures runs { is_broken self.new.metadata ≡ false → SecondaryRuns self.old.node self.new.node }
        ensures stays { is_broken self.old.metadata ≡ true → is_broken self.new.metadata ≡ true }
        ensures closed { turn.new.closed ≡ turn.old.closed }
    {
        if self.step_of_other(SecondaryRole::Sender, role, turn) {
            return true;
        }
        if self.step_of_other(SecondaryRole::Receiver, role, turn) {
            return true;
        }
        self.step_of_other(SecondaryRole::Disk, role, turn)
    }

    // Does a step of a role, unless it is `tried`. Returns whether there was one.
    fn step_of_other(&mut self, role: SecondaryRole, tried: SecondaryRole, turn: &mut Turn) -> bool
        ensures runs { is_broken self.new.metadata ≡ false → SecondaryRuns self.old.node self.new.node }
        ensures stays { is_broken self.old.metadata ≡ true → is_broken self.new.metadata ≡ true }
        ensures closed { turn.new.closed ≡ turn.old.closed }
    {
        if role == tried {
            return false;
        }
        self.step(role, turn)
    }

    // Does a step of a role. Returns whether there was one.
    fn step(&mut self, role: SecondaryRole, turn: &mut Turn) -> bool
        ensures runs { is_broken self.new.metadata ≡ false → SecondaryRuns self.old.node self.new.node }
        ensures stays { is_broken self.old.metadata ≡ true → is_broken self.new.metadata ≡ true }
        ensures closed { turn.new.closed ≡ turn.old.closed }
    {
        match role {
            SecondaryRole::Receiver => self.receive().is_ok(),
            SecondaryRole::Sender if turn.link_full => false,
            SecondaryRole::Sender => {
                let sent = self.ack_out();
                turn.link_full = sent == Err(Refusal::LinkFull);
                turn.pushed |= sent.is_ok();
                sent.is_ok()
            }
            SecondaryRole::Disk if turn.writes >= TURN_WRITES => false,
            SecondaryRole::Disk => {
                let is_applied = self.apply_next().is_ok();
                if is_applied {
                    turn.writes += 1;
                }
                is_applied
            }
        }
    }
}
