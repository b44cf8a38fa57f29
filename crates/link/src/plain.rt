//! A link between two nodes that run in one thread.
ghost use Rattle.std.specs.Prelude.{◌≡◌, IfOk, IfErr};
ghost use Rattle.link.specs.Directions.{IsDirection, IsUnused};
ghost use Rattle.blocks.specs.declared.refusal.Refusal.TheVariants.{NoMemory};

use crate::queue::Queue;
use crate::{PlainIn, PlainOut};
use blocks::Refusal;
use std::alloc::Global;

/// A link between two nodes of one thread.
#[derive(Drop)]
pub struct PlainLink {
    /// The primary's ends.
    pub primary: PlainEnds,
    /// The secondary's ends.
    pub secondary: PlainEnds,
}

/// The ends that a node has: one of each direction.
#[derive(Drop)]
pub struct PlainEnds {
    /// Where it sends.
    pub outward: PlainOut,
    /// Where it takes.
    pub inward: PlainIn,
}

impl PlainLink {
    /// Creates a link that holds up to `capacity` frames in each direction. `NoMemory` (7) if there is no room for
    /// them.
    pub fn new(alloc: Global, capacity: u32) -> Result<PlainLink, Refusal>
        ensures there { IfOk result (λ link. IsUnused link.primary.outward link.secondary.inward capacity) }
        ensures back { IfOk result (λ link. IsUnused link.secondary.outward link.primary.inward capacity) }
        ensures there_direction { IfOk result (λ link. IsDirection link.primary.outward link.secondary.inward) }
        ensures back_direction { IfOk result (λ link. IsDirection link.secondary.outward link.primary.inward) }
        ensures refused { IfErr result (λ e. e ≡ NoMemory) }
    {
        let there = Queue::new(alloc, capacity)?;
        let back = Queue::new(alloc, capacity)?;
        Ok(PlainLink {
            primary: PlainEnds {
                outward: PlainOut::new(there),
                inward: PlainIn::new(),
            },
            secondary: PlainEnds {
                outward: PlainOut::new(back),
                inward: PlainIn::new(),
            },
        })
    }
}
