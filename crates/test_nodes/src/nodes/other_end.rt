//! The other end of a node's link, which sends what a test gives it.
ghost use Rattle.std.specs.Prelude.{◌≡◌, [], IfOk};
ghost use Rattle.std.specs.Option.{ForSome};
ghost use Rattle.link.specs.Directions.{IsUnused};

use crate::nodes::frames::Spelled;
use blocks::Refusal;
use link::{FrameOut, PlainEnds, PlainLink, PlainOut, Queue};
use std::alloc::Global;

/// Frames in their order: those before the tested one, that one, and those after it.
#[derive(Clone, Copy)]
pub(crate) struct Frames {
    pub(crate) before: &'static [Spelled],
    pub(crate) tested: Spelled,
    pub(crate) behind: &'static [Spelled],
}

/// A sending end from whose queue nothing was taken yet.
#[derive(Drop)]
struct Sender {
    end: PlainOut,
    ghost untaken: { ForSome end.queue (λ queue. queue.taken ≡ []) },
}

impl Sender {
    fn send(&mut self, alloc: Global, frame: Spelled) -> Result<(), Refusal> {
        match self.end.offer(frame.frame(alloc)?) {
            Ok(()) => Ok(()),
            Err(offered) => Err(offered.refusal()),
        }
    }

    fn send_all(&mut self, alloc: Global, frames: Frames) -> Result<(), Refusal> {
        for frame in frames.before {
            self.send(alloc, *frame)?;
        }
        self.send(alloc, frames.tested)?;
        for frame in frames.behind {
            self.send(alloc, *frame)?;
        }
        Ok(())
    }
}

/// Makes the ends of a node at a new link, and the queue in which these frames wait for it. Both sides of a link are
/// alike, so the node may be of either kind.
pub(crate) fn linked(alloc: Global, frames: Frames) -> Result<(PlainEnds, Queue), Refusal>
    ensures unused { IfOk result (λ made. IsUnused made.0.outward made.0.inward 64) }
    ensures untaken { IfOk result (λ made. made.1.taken ≡ []) }
{
    let PlainLink { primary, secondary } = PlainLink::new(alloc, 64)?;
    let mut sender = Sender {
        end: secondary.outward,
    };
    sender.send_all(alloc, frames)?;
    match sender.end.give_queue() {
        Some(queue) => Ok((primary, queue)),
        None => Err(Refusal::NothingThere),
    }
}
