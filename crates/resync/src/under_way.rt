//! A resync at its source, and the block that it has under way.
ghost use Rattle.std.specs.Prelude.{◌≡◌, ◌&&◌, if◌then◌else◌, true, false, None, Some, is_none};
ghost use Rattle.resync.specs.UnderWay.{idle, is_block, is_in_epoch, is_way};

use blocks::Block;
use std::marker::Model;

/// The block that a resync has under way, with its place in the stream and its epoch.
#[derive(Clone, Copy, Debug, PartialEq, Eq)]
pub struct UnderWay {
    pub block: Block,
    pub place: u32,
    pub epoch: u32,
}

/// A resync at its source: whether it goes on, and the one block that is on its way to the peer, if there is
/// one (this project's rule: one at a time). No call takes memory, and each takes constant time.
#[derive(Drop)]
pub struct Resync {
    goes_on: bool,
    under_way: Option<UnderWay>,
}

impl Model for Resync {
    ghost use Rattle.resync.specs.UnderWay.{ResyncState};

    ghost Value = { ResyncState };

    ghost view = { λ r. record { goes_on = r.goes_on; under_way = r.under_way } };
}

impl Resync {
    /// Returns a state in which no resync goes on.
    pub fn new() -> Resync
        ensures { result ≡ idle }
    {
        Resync {
            goes_on: false,
            under_way: None,
        }
    }

    /// Returns whether a resync goes on.
    pub fn goes_on(&self) -> bool
        ensures { result ≡ self.now.goes_on }
    {
        self.goes_on
    }

    /// Starts a resync.
    pub fn begin(&mut self)
        ensures { self.new ≡ record self.old { goes_on = true } }
    {
        self.goes_on = true;
    }

    /// Returns the block under way, if there is one.
    pub fn under_way(&self) -> Option<UnderWay>
        ensures { result ≡ self.now.under_way }
    {
        self.under_way
    }

    /// Records that a block is under way. Requires that none is.
    pub fn copy(&mut self, way: UnderWay)
        requires { self.old.under_way ≡ None }
        ensures { self.new ≡ record self.old { under_way = Some way } }
    {
        self.under_way = Some(way);
    }

    /// Returns whether there is a block under way in this epoch.
    pub fn is_in_epoch(&self, epoch: u32) -> bool
        ensures { result ≡ is_in_epoch epoch self.now.under_way }
    {
        match self.under_way {
            Some(way) => way.epoch == epoch,
            None => false,
        }
    }

    /// Returns whether this block is under way, at this place.
    pub fn is_under_way(&self, block: Block, place: u32) -> bool
        ensures { result ≡ is_way block.0 place self.now.under_way }
    {
        match self.under_way {
            Some(way) => way.block == block && way.place == place,
            None => false,
        }
    }

    /// Records that the peer has acknowledged this block. Returns whether it was under way, at any place; then no
    /// block is. An acknowledgement of another block changes nothing. A caller that knows the acknowledged place asks
    /// `is_under_way` with it, and then calls `acknowledged`.
    pub fn acked(&mut self, block: Block) -> bool
        ensures awaited { result ≡ is_block block.0 self.old.under_way }
        ensures after { self.new ≡ (if result then record self.old { under_way = None } else self.old) }
    {
        let awaited = match self.under_way {
            Some(way) => way.block == block,
            None => false,
        };
        if awaited {
            self.acknowledged();
        }
        awaited
    }

    /// Records that the peer has the block under way. Then no block is under way.
    pub fn acknowledged(&mut self)
        ensures { self.new ≡ record self.old { under_way = None } }
    {
        self.under_way = None;
    }

    /// Returns whether a resync goes on and has no block under way, so that it is over if no block is marked.
    pub fn is_waiting(&self) -> bool
        ensures { result ≡ (self.now.goes_on && is_none self.now.under_way) }
    {
        self.goes_on && self.under_way.is_none()
    }

    /// Ends the resync.
    pub fn end(&mut self)
        ensures { self.new ≡ record self.old { goes_on = false } }
    {
        self.goes_on = false;
    }
}
