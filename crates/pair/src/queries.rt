//! Read-only accessors, and the comparison of both disks.
ghost use Rattle.std.specs.Prelude.{◌≡◌, ◌≤◌, ◌↔◌, length, Some, OnOk, IsErr, IfErr};
ghost use Rattle.blocks.specs.declared.block.TheConstants.{BLOCK_BYTES};
ghost use Rattle.blocks.specs.declared.refusal.Refusal.TheVariants.{BadRange};
ghost use Rattle.model.specs.Headline.{is_marked};
ghost use Rattle.model.specs.Pair.{PairHistory, differs, tuples};
ghost use Rattle.pair.specs.Reading.{disk_at, size_of};
ghost use Rattle.pair.specs.State.{state};
ghost use Rattle.pair_protocol.specs.State.{PairHas};

use crate::{Pair, PrimaryNode, SecondaryNode, Side};
use blocks::{Block, Refusal, Store, Tuple};

impl Pair {
    /// Returns the generation identifiers of the primary and those of the secondary.
    pub fn tuples(&self) -> (Tuple, Tuple)
        ensures { (h : PairHistory) → PairHas (state self.now) h → result ≡ tuples h }
    {
        (self.primary.tuple(), self.secondary.tuple())
    }

    /// Returns whether the block is marked at the primary.
    pub fn is_marked(&self, block: Block) -> bool
        ensures { (h : PairHistory) → PairHas (state self.now) h → result ≡ is_marked h.primary block.0 }
    {
        self.primary.is_marked(block)
    }

    /// Reads a block of one node's disk into a buffer of 4,096 bytes. `BadRange` (1) for a block past the
    /// end. It changes nothing, and takes no memory.
    pub fn read(&mut self, side: Side, block: Block, buffer: &mut [u8]) -> Result<(), Refusal>
        requires { length buffer.old ≡ BLOCK_BYTES }
        ensures read { OnOk result ((h : PairHistory) → PairHas (state self.old) h → disk_at side h block.0 ≡ Some buffer.new) }
        ensures past_the_end { IsErr result ↔ (size_of side self.old ≤ block.0) }
        ensures refused { IfErr result (λ e. e ≡ BadRange) }
        ensures same { self.new ≡ self.old }
    {
        match side {
            Side::Primary => self.primary.read_block(block, buffer),
            Side::Secondary => self.secondary.read_block(block, buffer),
        }
    }

    /// Returns whether the two disks differ in a block, compared in place. Past their end they do not.
    pub fn differs(&self, block: Block) -> bool
        ensures { (h : PairHistory) → PairHas (state self.now) h → result ≡ differs h block.0 }
    {
        let local = self.primary.store();
        let peer = self.secondary.store();
        let is_local = block.0 < u64::from(local.blocks());
        let is_peer = block.0 < u64::from(peer.blocks());
        if is_local != is_peer {
            return true;
        }
        if !is_local {
            return false;
        }
        local.block(block) != peer.block(block)
    }

    /// Returns the primary, for reading.
    pub fn primary(&self) -> &PrimaryNode
        ensures { result.now ≡ self.now.primary }
    {
        &self.primary
    }

    /// Returns the secondary, for reading.
    pub fn secondary(&self) -> &SecondaryNode
        ensures { result.now ≡ self.now.secondary }
    {
        &self.secondary
    }
}
