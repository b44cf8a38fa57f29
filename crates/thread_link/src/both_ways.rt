//! The link between threads in both directions.
ghost use Rattle.std.specs.Prelude.{◌≡◌, ◌<◌, IfOk, IfErr};
ghost use Rattle.blocks.specs.declared.refusal.Refusal.TheVariants.{NoMemory};
ghost use Rattle.thread_link.specs.Unused.{IsUnused};

use crate::{RuledIn, RuledOut, ruled};
use blocks::Refusal;
use std::alloc::Global;
use std::sync::Wait;

/// A link between two nodes, in one thread or in two. It has both directions, each as `ruled` makes it.
#[derive(Drop)]
pub struct RuledLink<R: Wait> {
    /// The ends of the direction in which the primary sends and the secondary takes.
    pub there: (RuledOut<R>, RuledIn<R>),
    /// The ends of the direction in which the secondary sends and the primary takes.
    pub back: (RuledOut<R>, RuledIn<R>),
}

impl<R: Wait + Copy> RuledLink<R> {
    /// Creates a link with room for `link` frames each way; all ends are on a first connection.
    /// `NoMemory` (7) if there is no memory for the room.
    pub fn new(rt: R, alloc: Global, link: u32) -> Result<RuledLink<R>, Refusal>
        requires { 0 < link }
        ensures there { IfOk result (λ l. IsUnused link l.there) }
        ensures back { IfOk result (λ l. IsUnused link l.back) }
        ensures refused { IfErr result (λ e. e ≡ NoMemory) }
    {
        let there = ruled(rt, alloc, link)?;
        let back = ruled(rt, alloc, link)?;
        Ok(RuledLink { there, back })
    }
}
