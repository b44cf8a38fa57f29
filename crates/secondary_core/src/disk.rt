//! Pending items and the disk: starting, done, failed.
ghost use Rattle.std.specs.Prelude.{◌≡◌, ◌+◌, ◌≤◌, length, ok_or, Ok, Err, IsOk, IfOk, MatchResult};
ghost use Rattle.blocks.specs.declared.outcome.What.TheVariants as what;
ghost use Rattle.blocks.specs.declared.refusal.Refusal.TheVariants.{NothingThere};
ghost use Rattle.peerdisk.specs.Pending.{next};
ghost use Rattle.model.specs.Refusals.{done_with};
ghost use Rattle.model.specs.Stream.{contents_of, first_of};
ghost use Rattle.secondary_protocol.specs.Core.{applied, failing, start};

use crate::item::PendingItem;
use crate::send::acknowledge;
use crate::state::SecondaryCore;
use blocks::{Done, Refusal, What};

impl SecondaryCore {
    /// Returns the lowest pending place, if an item is pending.
    pub fn next(&self) -> Option<u32>
        ensures { ok_or result NothingThere ≡ next self.now.state.pending }
    {
        self.disk.next().ok()
    }

    /// Returns the item of a place, if the disk may do it now; the device has its blocks. `UnknownJob` (16) if the
    /// place is not pending, `EpochOpen` (17) if an item of an earlier epoch is.
    pub fn start(&self, place: u32) -> Result<&PendingItem, Refusal>
        ensures started { MatchResult result (λ item. start place self.now.state ≡ Ok item.now) (λ e. start place self.now.state ≡ Err e) }
        ensures inside { IfOk result (λ item. first_of item.now + length (contents_of item.now) ≤ self.now.state.settings.blocks) }
    {
        self.disk.start(place)
    }

    /// Records that the disk has done the item of a place that may start. At an open end, the acknowledgement that
    /// the protocol asks for then comes due, and that of each epoch that is now wholly applied. It takes no memory.
    #[tactic(auto, using(crate::proofs::Places::may_start, crate::proofs::Places::one_less, crate::proofs::Kept::one_most))]
    pub fn done(&mut self, place: u32) -> Done
        requires { IsOk (start place self.old.state) }
        ensures state { self.new.state ≡ applied place self.old.state }
        ensures done { result ≡ done_with what.Nothing }
    {
        // No more are applied than were taken, so the count fits.
        let _taken = self.inbox.places();
        let item = self.disk.done(place);
        self.items_applied += 1;
        let answer = item.answer(self.settings.protocol, place);
        acknowledge(&mut self.connection, answer, &self.disk);
        Done::about(What::Nothing)
    }

    /// Records that the disk failed the item of a place that may start: closes the end, and drops the item and
    /// those of later epochs. It takes no memory.
    #[tactic(auto, using(crate::proofs::Places::may_start))]
    pub fn failed(&mut self, place: u32) -> Done
        requires { IsOk (start place self.old.state) }
        ensures state { self.new.state ≡ failing place self.old.state }
        ensures done { result ≡ done_with what.Nothing }
    {
        self.failed = Some(self.disk.fault(place));
        self.connection = None;
        Done::about(What::Nothing)
    }
}
