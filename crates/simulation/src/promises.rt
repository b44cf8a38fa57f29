//! What clients were told, and what follows from it.
use std::alloc::{AllocError, Global};
use std::collections::BTreeMap;

/// How a write stands.
#[derive(Clone, Copy, PartialEq, Eq)]
pub(crate) enum Fate {
    Open,
    Completed,
    /// The local disk failed it, or its server ended before.
    Lost,
}

/// A write that was accepted.
#[derive(Clone, Copy)]
pub(crate) struct Write {
    pub(crate) first: u64,
    pub(crate) count: u64,
    pub(crate) fate: Fate,
    /// The events before the one that submitted it.
    pub(crate) submitted: u64,
    // The events before the one that completed it, as far as that says something of an order.
    completed: Option<u64>,
    // The number of the connection that took it; 0 if none did.
    connection: u32,
    // Whether it was released on that connection, so that the peer's disk has it.
    is_on_peer: bool,
    // How often the peer's machine had lost power when it was submitted.
    peer_cuts: u64,
}

/// What is promised of a block: the newest write that each place has to have, or a newer one.
#[derive(Drop)]
pub(crate) struct Promised {
    /// The writes to the block, by number.
    pub(crate) writes: Vec<u64>,
    /// What the local disk has.
    pub(crate) local: u64,
    /// What its platter has.
    pub(crate) local_stable: u64,
    /// What the peer's disk has.
    pub(crate) peer: u64,
    /// What its platter has.
    pub(crate) peer_stable: u64,
}

/// What clients were told. Writes have numbers from 1 on, through all sessions.
#[derive(Drop)]
pub(crate) struct Promises {
    alloc: Global,
    writes: Vec<Write>,
    open: Vec<u64>,
    // The writes of the sessions before this one.
    before: u64,
    // The number up to which each write is released.
    released: u64,
    blocks: BTreeMap<u64, Promised>,
    // How often the peer's machine has lost power.
    peer_cuts: u64,
    // How often something was noted.
    changes: u64,
}

impl Promises {
    /// Returns what is promised before any write.
    pub(crate) fn new(alloc: Global) -> Promises {
        Promises {
            alloc,
            writes: Vec::new(alloc),
            open: Vec::new(alloc),
            before: 0,
            released: 0,
            blocks: BTreeMap::new(alloc),
            peer_cuts: 0,
            changes: 0,
        }
    }

    /// Returns a number that grows with each change.
    pub(crate) fn changes(&self) -> u64 {
        self.changes
    }

    fn change(&mut self) {
        self.changes = self.changes.saturating_add(1);
    }

    /// Returns the number of the last write that was accepted.
    pub(crate) fn last(&self) -> u64 {
        self.writes.len() as u64
    }

    /// Returns the number up to which each write is released.
    pub(crate) fn released(&self) -> u64 {
        self.released
    }

    /// Returns the write of a number.
    pub(crate) fn write(&self, id: u64) -> Option<&Write> {
        self.writes.get(id.checked_sub(1)? as usize)
    }

    fn write_mut(&mut self, id: u64) -> Option<&mut Write> {
        self.writes.get_mut(id.checked_sub(1)? as usize)
    }

    /// Returns what is promised of each block that was written.
    pub(crate) fn blocks(&self) -> &BTreeMap<u64, Promised> {
        &self.blocks
    }

    /// Returns the number that a write has in its session.
    pub(crate) fn number_in_session(&self, id: u64) -> u64 {
        id.saturating_sub(self.before)
    }

    /// Returns the open writes.
    pub(crate) fn open(&self) -> &[u64] {
        self.open.as_slice()
    }

    /// Begins a session: its writes are numbered anew there.
    pub(crate) fn begin_session(&mut self) {
        self.lose_open();
        self.before = self.last();
        self.released = self.before;
    }

    /// Notes that the next write was accepted. An error if there is no memory.
    pub(crate) fn accept(
        &mut self,
        first: u64,
        count: u64,
        now: u64,
        connection: u32,
    ) -> Result<(), AllocError> {
        self.change();
        self.writes.push(Write {
            first,
            count,
            fate: Fate::Open,
            submitted: now,
            completed: None,
            connection,
            is_on_peer: false,
            peer_cuts: self.peer_cuts,
        })?;
        let id = self.last();
        self.open.push(id)?;
        for offset in 0..count {
            self.add_to_block(first.saturating_add(offset), id)?;
        }
        Ok(())
    }

    fn add_to_block(&mut self, block: u64, id: u64) -> Result<(), AllocError> {
        if let Some(promised) = self.blocks.get_mut(&block) {
            promised.writes.push(id)?;
            return Ok(());
        }
        let mut writes = Vec::new(self.alloc);
        writes.push(id)?;
        self.blocks.insert(
            block,
            Promised {
                writes,
                local: 0,
                local_stable: 0,
                peer: 0,
                peer_stable: 0,
            },
        )?;
        Ok(())
    }

    /// Notes that an open write was completed: the local disk has it and, if it `is_on_both`, the peer's, unless that has lost power since
    /// it was submitted.
    pub(crate) fn complete(&mut self, id: u64, now: u64, is_on_both: bool) {
        self.change();
        self.open.retain(|open| *open != id);
        let peer_cuts = self.peer_cuts;
        let Some(write) = self.write_mut(id) else {
            return;
        };
        write.fate = Fate::Completed;
        write.completed = Some(now);
        let (first, count) = (write.first, write.count);
        let is_on_both = is_on_both && write.peer_cuts == peer_cuts;
        for offset in 0..count {
            if let Some(promised) = self.blocks.get_mut(&first.saturating_add(offset)) {
                promised.local = promised.local.max(id);
                if is_on_both {
                    promised.peer = promised.peer.max(id);
                }
            }
        }
    }

    /// Notes that an open write will never be completed.
    pub(crate) fn fail(&mut self, id: u64) {
        self.change();
        self.open.retain(|open| *open != id);
        if let Some(write) = self.write_mut(id) {
            write.fate = Fate::Lost;
        }
    }

    /// Notes that no open write will be completed.
    pub(crate) fn lose_open(&mut self) {
        for _ in 0..self.open.len() {
            if let Some(id) = self.open.pop() {
                self.fail(id);
            }
        }
    }

    /// Notes up to which of its writes the session has released all, over which connection if that is open; 0 if none is. The peer's disk has
    /// those of this connection, unless it has lost power since they were submitted.
    pub(crate) fn release(&mut self, number: u64, connection: u32) {
        let last = self.before.saturating_add(number);
        let peer_cuts = self.peer_cuts;
        for id in self.released.saturating_add(1)..last.saturating_add(1) {
            if let Some(write) = self.write_mut(id) {
                write.is_on_peer = connection != 0
                    && write.connection == connection
                    && write.peer_cuts == peer_cuts;
            }
        }
        self.released = self.released.max(last);
    }

    /// Notes that the local disk was synced, since all writes up to this one were released.
    pub(crate) fn flush_local(&mut self, last: u64) {
        self.change();
        for promised in self.blocks.values_mut() {
            let stable = newest(&self.writes, promised.writes.as_slice(), last, false);
            promised.local_stable = promised.local_stable.max(stable);
        }
    }

    /// Notes the same of the peer's disk.
    pub(crate) fn flush_peer(&mut self, last: u64) {
        self.change();
        for promised in self.blocks.values_mut() {
            let stable = newest(&self.writes, promised.writes.as_slice(), last, true);
            promised.peer_stable = promised.peer_stable.max(stable);
        }
    }

    /// Notes that the local disk may have lost what was not on its platter, and that the peer's disk may get what the local one has now. No
    /// later flush is of a write before, and none says anything of an order.
    pub(crate) fn cut_local_power(&mut self) {
        self.change();
        for write in self.writes.iter_mut() {
            write.fate = Fate::Lost;
            write.completed = None;
        }
        for promised in self.blocks.values_mut() {
            promised.local = promised.local_stable;
            promised.peer = promised.peer_stable;
        }
    }

    /// Notes that the peer's disk may have lost what was not on its platter.
    pub(crate) fn cut_peer_power(&mut self) {
        self.change();
        self.peer_cuts = self.peer_cuts.saturating_add(1);
        for write in self.writes.iter_mut() {
            write.is_on_peer = false;
        }
        for promised in self.blocks.values_mut() {
            promised.peer = promised.peer_stable;
        }
    }

    /// Returns the newest of a block's writes that was completed before this moment; 0 if there is none.
    pub(crate) fn completed_before(&self, promised: &Promised, moment: u64) -> u64 {
        for id in promised.writes.iter().rev() {
            if let Some(write) = self.write(*id)
                && write.completed.is_some_and(|completed| completed < moment)
            {
                return *id;
            }
        }
        0
    }
}

// Returns the newest completed one of a block's writes, up to this one, which the peer's disk has too, if that is asked for; 0 if there is
// none.
fn newest(writes: &[Write], of_block: &[u64], last: u64, is_peer: bool) -> u64 {
    for id in of_block.iter().rev() {
        let found = id
            .checked_sub(1)
            .and_then(|place| writes.get(place as usize));
        if let Some(write) = found
            && *id <= last
            && write.fate == Fate::Completed
            && (write.is_on_peer || !is_peer)
        {
            return *id;
        }
    }
    0
}
