//! The world of two nodes: what their machines keep, the link between them, and what clients were told.
ghost use Rattle.std.specs.Prelude.{◌≡◌, [], IfOk};

use crate::broken::Stopped;
use crate::counts::Counts;
use crate::event::Node;
use crate::machine::{Machine, shared};
use crate::plan::Plan;
use crate::process::Process;
use crate::promises::Promises;
use crate::wire::{Direction, WireIn, WireOut};
use blocks::{ConnectionWords, Refusal};
use std::alloc::Global;
use std::cell::RefCell;
use std::rc::Rc;

/// How far a flush is that a client asked for.
#[derive(Clone, Copy)]
pub(crate) enum Flushing {
    No,
    /// It waits until the writes up to this one are released.
    Waits(u64),
    /// The local disk is synced for the writes up to this one.
    LocalDone(u64),
}

/// How far the housekeeping is.
#[derive(Clone, Copy)]
pub(crate) enum House {
    Rests,
    Prepared,
    LocalSynced,
    BothSynced,
}

/// The link: both directions.
#[derive(Drop)]
pub(crate) struct Wire {
    pub(crate) there: Rc<RefCell<Direction>>,
    pub(crate) back: Rc<RefCell<Direction>>,
}

/// The world around both nodes.
#[derive(Drop)]
pub(crate) struct World {
    pub(crate) alloc: Global,
    pub(crate) plan: Plan,
    pub(crate) local: Machine,
    pub(crate) peer: Machine,
    pub(crate) wire: Wire,
    pub(crate) promises: Promises,
    pub(crate) flushing: Flushing,
    pub(crate) house: House,
    /// The events so far.
    pub(crate) now: u64,
    /// Whether a write of the local disk failed since the disks were last alike: then no order is promised.
    pub(crate) is_order_lost: bool,
    /// The number of changes at the last check.
    pub(crate) checked: u64,
    /// How often what came.
    pub(crate) counts: Counts,
    next_word: u64,
}

impl Wire {
    /// Returns a link with room for `capacity` frames each way.
    pub(crate) fn new(alloc: Global, capacity: u32) -> Result<Wire, Stopped> {
        Ok(Wire {
            there: Rc::new(alloc, RefCell::new(Direction::new(alloc, capacity)))?,
            back: Rc::new(alloc, RefCell::new(Direction::new(alloc, capacity)))?,
        })
    }

    /// Breaks the link: only `there` and `back` frames that are on their way still arrive.
    pub(crate) fn cut(&self, there: u64, back: u64) {
        if let Ok(mut direction) = self.there.try_borrow_mut() {
            direction.cut(there);
        }
        if let Ok(mut direction) = self.back.try_borrow_mut() {
            direction.cut(back);
        }
    }

    /// Mends the link.
    pub(crate) fn mend(&self) {
        if let Ok(mut direction) = self.there.try_borrow_mut() {
            direction.mend();
        }
        if let Ok(mut direction) = self.back.try_borrow_mut() {
            direction.mend();
        }
    }

    /// Returns whether the link is broken.
    pub(crate) fn is_cut(&self) -> bool {
        match self.there.try_borrow() {
            Ok(direction) => direction.is_cut(),
            Err(_) => true,
        }
    }

    /// Returns the primary's ends.
    pub(crate) fn primary_ends(&self) -> Result<(WireOut, WireIn), Refusal>
        ensures outward { IfOk result (λ ends. (ends.0.number ≡ 1) × (ends.0.sent.went ≡ record { frames = []; past = [] })) }
        ensures inward { IfOk result (λ ends. (ends.1.number ≡ 1) × (ends.1.taken.went ≡ record { frames = []; past = [] })) }
    {
        let outward = WireOut::new(shared(&self.there)?);
        let inward = WireIn::new(shared(&self.back)?);
        Ok((outward, inward))
    }

    /// Returns the secondary's ends.
    pub(crate) fn secondary_ends(&self) -> Result<(WireOut, WireIn), Refusal>
        ensures outward { IfOk result (λ ends. (ends.0.number ≡ 1) × (ends.0.sent.went ≡ record { frames = []; past = [] })) }
        ensures inward { IfOk result (λ ends. (ends.1.number ≡ 1) × (ends.1.taken.went ≡ record { frames = []; past = [] })) }
    {
        let outward = WireOut::new(shared(&self.back)?);
        let inward = WireIn::new(shared(&self.there)?);
        Ok((outward, inward))
    }
}

impl World {
    /// Returns the world of a plan, with disks that were never written and empty metadata files. An error if there is no memory.
    pub(crate) fn new(alloc: Global, plan: Plan) -> Result<World, Stopped> {
        let process = Rc::new(alloc, Process::new())?;
        let other = if plan.is_one_machine {
            process.clone()?
        } else {
            Rc::new(alloc, Process::new())?
        };
        let local = Machine::new(alloc, process, 1)?;
        let peer = Machine::new(alloc, other, if plan.is_one_machine { 1 } else { 2 })?;
        let wire = Wire::new(alloc, plan.settings.link)?;
        Ok(World {
            alloc,
            plan,
            local,
            peer,
            wire,
            promises: Promises::new(alloc),
            flushing: Flushing::No,
            house: House::Rests,
            now: 0,
            is_order_lost: false,
            checked: 0,
            counts: Counts::new(alloc),
            next_word: 100,
        })
    }

    /// Returns two fresh words, for a connection.
    pub(crate) fn words(&mut self) -> ConnectionWords {
        let sync = self.next_word;
        self.next_word = self.next_word.saturating_add(2);
        ConnectionWords {
            sync,
            loss: sync.saturating_add(1),
        }
    }

    /// Returns what the machine of a node keeps.
    pub(crate) fn machine(&self, node: Node) -> &Machine {
        match node {
            Node::Primary => &self.local,
            Node::Secondary => &self.peer,
        }
    }

    /// Forgets what clients have under way.
    pub(crate) fn lose_clients(&mut self) {
        self.promises.lose_open();
        self.flushing = Flushing::No;
        self.house = House::Rests;
        self.wire.cut(u64::MAX, 0);
    }

    /// Readies the world for a session: each process that has stopped is started anew, the link has nothing on its way, and clients have
    /// nothing under way.
    pub(crate) fn renew(&mut self) {
        for node in [Node::Primary, Node::Secondary] {
            let process = &self.machine(node).process;
            if process.is_stopped() {
                process.restart();
            }
        }
        self.promises.begin_session();
        self.lose_clients();
        self.wire.mend();
    }
}
