//! Closing the end.
ghost use Rattle.std.specs.Prelude.{◌≡◌, length, if◌then◌else◌};
ghost use Rattle.bitmap.specs.Marks.{marking};
ghost use Rattle.transferlog.specs.Ring.{Each};
ghost use Rattle.primary_core.specs.Kept.{IsInside};
ghost use Rattle.blocks.specs.Identifiers.{lost};
ghost use Rattle.primary_core.specs.Close.{without_stream};
ghost use Rattle.primary_protocol.specs.Core.{EndState, is_established};
ghost use Rattle.primary_protocol.specs.Transitions.{close_end, closing, unreleased_blocks};

use crate::state::PrimaryCore;
use bitmap::Bitmap;
use blocks::Refusal;
use transferlog::TransferLog;

impl PrimaryCore {
    /// Closes the end: marks the blocks of every unreleased write, and detaches all writes from the connection.
    /// Returns how many writes that completed.
    ///
    /// `NotConnected` (12) if it is closed. It takes no memory, and time for each number from the first unreleased
    /// one on and for each item that was not sent.
    pub fn close(&mut self) -> Result<u32, Refusal>
        ensures { (result, self.new.state) ≡ close_end self.old.state }
    {
        let Some(connection) = &self.connection else {
            return Err(Refusal::NotConnected);
        };
        let loss = connection.loss;
        Ok(self.close_open(loss))
    }

    /// Closes the open end, whose loss word is `loss`, as `close` does. Returns how many writes that completed.
    pub(crate) fn close_open(&mut self, loss: u64) -> u32
        ensures { (e : EndState) → e.loss ≡ loss → (result, self.new.state) ≡ closing e self.old.state }
    {
        self.mark_unreleased();
        self.lose(loss);
        let completed = self.drain();
        self.apply_log_report();
        completed
    }

    // Marks the blocks of every unreleased write.
    fn mark_unreleased(&mut self)
        ensures { self.new.state ≡ record self.old.state { marks = marking (unreleased_blocks self.old.state.log.writes) self.old.state.marks } }
    {
        mark_all(&self.log, &mut self.marks);
    }

    // Starts a new data generation under the loss word, if the connection was established.
    fn lose(&mut self, loss: u64)
        ensures { self.new.state ≡ record self.old.state { tuple = if is_established self.old.state then lost loss self.old.state.tuple else self.old.state.tuple } }
    {
        if self.log.connection().is_some() {
            self.generations.lost(loss);
        }
    }

    // Detaches all writes from the connection, and drops it. Returns how many writes that completed.
    fn drain(&mut self) -> u32
        ensures { (result, self.new.state) ≡ without_stream self.old.state }
    {
        let completed = self.log.drain();
        self.connection = None;
        completed
    }
}

// Marks the blocks of every unreleased write.
fn mark_all(log: &TransferLog, marks: &mut Bitmap)
    requires { Each (IsInside (length marks.old)) log.now.state.writes }
    ensures { marks.new ≡ marking (unreleased_blocks log.now.state.writes) marks.old }
{
    let mut number = 0;
    while let Some(write) = log.unreleased_from(number) {
        marks.mark(write.range());
        number = write.number() + 1;
    }
}
