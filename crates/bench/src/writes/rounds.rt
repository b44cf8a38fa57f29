//! Writes that go through the pair, as many at a time as are in flight.
ghost use Rattle.std.specs.Prelude.{◌≡◌, ◌<◌, length};

use crate::writes::image::blank;
use crate::writes::workload::{Workload, block_of};
use blocks::{Block, Command, Done, MemStore, Protocol, Refusal, Reply, Settings, Tuple, What};
use handshakes::HELLO_FRAMES;
use pair::{Event, Pair, Side};
use primary::Fate;
use std::alloc::Global;
use std::collections::VecDeque;

/// How often the link is filled and emptied in a round at most: once more than its frames need. A round has a barrier
/// or two more than writes.
const PASSES: u32 = 3;

/// Counts of the writes.
#[derive(Clone, Copy)]
pub(crate) struct Counts {
    /// How many were accepted.
    pub(crate) accepted: u64,
    /// How many were completed over the link.
    pub(crate) completed: u64,
    /// How many are in an epoch that the peer has acknowledged.
    pub(crate) released: u64,
    /// How many items the peer's disk has done.
    pub(crate) applied: u64,
}

/// A pair of nodes, and the writes that go through it. A round takes as many as may be in flight from their
/// acceptance to their completion.
#[derive(Drop)]
pub(crate) struct Rounds {
    blocks: u32,
    in_flight: u32,
    // The most frames that go over the link at a time.
    frames: u32,
    pair: Pair,
    // How many writes were accepted before each unacknowledged barrier.
    barriers: VecDeque<u64>,
    counts: Counts,
    ghost some: { 0 < blocks },
    ghost flying: { 0 < in_flight },
}

/// Returns settings under which nothing is refused while `in_flight` writes are in flight: the next round's writes are
/// accepted before the last round's are released, and every extent of the largest device may be active.
fn settings(protocol: Protocol, blocks: u32, in_flight: u32) -> Settings {
    Settings {
        protocol,
        blocks,
        max_epoch: 2_048,
        slots: 64,
        backlog: in_flight.saturating_mul(2).min(4_096),
        link: in_flight.saturating_mul(2).min(1_024),
        pending: in_flight.saturating_mul(2).min(4_096),
    }
}

impl Rounds {
    /// Makes two nodes that have not exchanged their hellos yet.
    pub(crate) fn new(
        alloc: Global,
        protocol: Protocol,
        blocks: u32,
        in_flight: u32,
    ) -> Result<Rounds, Refusal>
        requires some { 0 < blocks }
        requires flying { 0 < in_flight }
    {
        let settings = settings(protocol, blocks, in_flight);
        let local = MemStore::from_image(blank(alloc, blocks)?)?;
        let peer = MemStore::from_image(blank(alloc, blocks)?)?;
        let marks = Vec::from_elem(alloc, false, blocks as usize)?;
        let first = Tuple::new(1, 0, 0, 0);
        Ok(Rounds {
            blocks,
            in_flight,
            frames: settings.link,
            pair: Pair::from_parts(alloc, settings, local, peer, first, first, marks)?,
            barriers: VecDeque::new(alloc),
            counts: Counts {
                accepted: 0,
                completed: 0,
                released: 0,
                applied: 0,
            },
        })
    }

    /// Returns the counts of the writes so far.
    pub(crate) fn counts(&self) -> Counts {
        self.counts
    }

    /// Reads a block of the primary's disk, and the same block of the secondary's.
    pub(crate) fn read(
        &mut self,
        block: u32,
        local: &mut [u8],
        peer: &mut [u8],
    ) -> Result<(), Refusal>
        requires local { length local.old ≡ 4096 }
        requires peer { length peer.old ≡ 4096 }
        ensures local { length local.new ≡ 4096 }
        ensures peer { length peer.new ≡ 4096 }
    {
        let block = Block(u64::from(block));
        self.pair.read(Side::Primary, block, local)?;
        self.pair.read(Side::Secondary, block, peer)
    }

    // Gives the pair one event. Returns what it did.
    fn step(&mut self, event: Event) -> Result<Done, Refusal> {
        match self.pair.step(&event) {
            Reply::Ok(done) => Ok(done),
            Reply::Closed(_) => Ok(Done::about(What::Nothing)),
            Reply::Refused(refusal) => Err(refusal),
        }
    }

    /// Opens both ends, and exchanges the three frames of each node's hello.
    pub(crate) fn greet(&mut self) -> Result<(), Refusal> {
        self.step(Event::Open { sync: 2, loss: 3 })?;
        for _ in 0..HELLO_FRAMES {
            self.step(Event::AckOut)?;
            self.step(Event::AckIn)?;
            self.step(Event::Send)?;
            self.step(Event::Receive)?;
        }
        if self.pair.primary().is_established() {
            Ok(())
        } else {
            Err(Refusal::NotConnected)
        }
    }

    /// Takes `writes` writes through both nodes, as many at a time as may be in flight.
    pub(crate) fn write(&mut self, workload: &Workload, writes: u32) -> Result<(), Refusal> {
        for first in (0..writes).step_by(self.in_flight as usize) {
            let end = first.saturating_add(self.in_flight).min(writes);
            self.round(workload, first, end)?;
        }
        Ok(())
    }

    // Takes the writes of one round through the pair. The numbers of writes are counted from 1.
    fn round(&mut self, workload: &Workload, from: u32, to: u32) -> Result<(), Refusal> {
        for turn in from..to {
            self.submit(workload, turn)?;
        }
        for turn in from..to {
            let done = self.step(Event::Local(number_of(turn)))?;
            self.note(done)?;
        }
        self.exchange()?;
        for turn in from..to {
            if self.is_linked(turn) {
                self.counts.completed = self.counts.completed.saturating_add(1);
            }
        }
        Ok(())
    }

    // Returns whether the write of this turn was completed over the link.
    fn is_linked(&self, turn: u32) -> bool {
        match self.pair.primary().journal().get(turn as usize) {
            Some(entry) => matches!(entry.fate(), Fate::Completed { linked: true, .. }),
            None => false,
        }
    }

    fn submit(&mut self, workload: &Workload, turn: u32) -> Result<(), Refusal> {
        let contents = workload.contents(turn)?;
        let first = u64::from(block_of(turn, self.blocks));
        let done = self.step(Event::Submit { first, contents })?;
        self.counts.accepted = self.counts.accepted.saturating_add(1);
        self.note(done)
    }

    /// Sends what is due over the link and back. `LinkFull` (11) if more was due than a round can need.
    pub(crate) fn exchange(&mut self) -> Result<(), Refusal> {
        for _ in 0..PASSES {
            let sent = self.send()?;
            let items = self.receive(sent)?;
            self.apply(items)?;
            let answers = self.answer()?;
            self.take_answers(answers)?;
            if sent < self.frames {
                return Ok(());
            }
        }
        Err(Refusal::LinkFull)
    }

    // Sends as many frames as are due and the link holds. Returns how many.
    fn send(&mut self) -> Result<u32, Refusal> {
        for sent in 0..self.frames {
            match self.step(Event::Send) {
                Ok(done) => self.note(done)?,
                Err(Refusal::NothingThere) => return Ok(sent),
                Err(refusal) => return Err(refusal),
            }
        }
        Ok(self.frames)
    }

    // Has the secondary take this number of frames. Returns how many writes they carry.
    fn receive(&mut self, frames: u32) -> Result<u32, Refusal> {
        let mut items: u32 = 0;
        for _ in 0..frames {
            if let What::Frame(Command::Data, _) = self.step(Event::Receive)?.what {
                items = items.saturating_add(1);
            }
        }
        Ok(items)
    }

    // Has the secondary's disk do this number of items.
    fn apply(&mut self, items: u32) -> Result<(), Refusal> {
        for _ in 0..items {
            let place = self.pair.secondary().next()?;
            self.step(Event::Peer(place))?;
            self.counts.applied = self.counts.applied.saturating_add(1);
        }
        Ok(())
    }

    // Has the secondary send the acknowledgements that are due; the link holds all of them. Returns how many.
    fn answer(&mut self) -> Result<u32, Refusal> {
        for sent in 0..self.frames {
            match self.step(Event::AckOut) {
                Ok(_) => {}
                Err(Refusal::NothingThere) => return Ok(sent),
                Err(refusal) => return Err(refusal),
            }
        }
        Ok(self.frames)
    }

    // Has the primary take this number of acknowledgements.
    fn take_answers(&mut self, answers: u32) -> Result<(), Refusal> {
        for _ in 0..answers {
            let done = self.step(Event::AckIn)?;
            if done.what == What::Frame(Command::BarrierAck, None) {
                self.release()?;
            }
            self.note(done)?;
        }
        Ok(())
    }

    // Records a barrier, which comes after all writes accepted so far.
    fn note(&mut self, done: Done) -> Result<(), Refusal> {
        if done.barrier.is_some() {
            self.barriers.push_back(self.counts.accepted)?;
        }
        Ok(())
    }

    // Records that the oldest barrier is acknowledged. `NothingThere` (13) if there is none.
    fn release(&mut self) -> Result<(), Refusal> {
        let Some(accepted) = self.barriers.pop_front() else {
            return Err(Refusal::NothingThere);
        };
        self.counts.released = accepted;
        Ok(())
    }
}

// Returns the number of a write; the first is 1.
fn number_of(turn: u32) -> u64 {
    u64::from(turn).saturating_add(1)
}
