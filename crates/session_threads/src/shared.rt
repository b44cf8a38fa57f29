//! The state that both halves of a running session share, and the loop of each thread.
use session_api::{PrimaryHalf, PrimaryRole, SecondaryHalf, SecondaryRole, Turn};
use std::mem;
use std::sync::atomic::{AtomicBool, AtomicU32, Ordering};
use std::sync::{Mutex, Wait};
use std::time::Clock;

/// The most blocks of a short write: 32 KiB. A thread does it at both disks in less time than another one takes to wake.
const SHORT_BLOCKS: u64 = 8;

/// How the frames of a session get from one half to the other.
#[derive(Clone, Copy, Debug, PartialEq, Eq)]
pub(crate) enum Transport {
    /// Through the rows of one link, over any number of connections.
    Link,
    /// By pumps, over one connection.
    Streams,
}

/// Both halves. No thread holds the locks of both nodes at once. A thread that opens or closes a connection locks
/// `connecting` before any node; only a node that closes by itself in a turn does so without it.
#[derive(Drop)]
pub(crate) struct Shared<R: Wait, A: PrimaryHalf, B: SecondaryHalf> {
    pub(crate) rt: R,
    pub(crate) primary: A,
    pub(crate) secondary: B,
    pub(crate) transport: Transport,
    pub(crate) connecting: Mutex<()>,
    pub(crate) stop: AtomicBool,
    // Writes that were begun and for which nobody waits yet.
    begun: AtomicU32,
    // Whether the primary pushed a frame for which no thread of the secondary was woken: the thread that waits for the write takes it.
    is_unrung: AtomicBool,
    // Whether a writer left a frame for which nobody waits, such as a barrier: whoever is next at the secondary takes it.
    is_left: AtomicBool,
    // Whether a thread of the primary does the peer's turns too, as for a copy: then no other thread needs to look unless it is rung for.
    is_driven: AtomicBool,
}

impl<R: Wait, A: PrimaryHalf, B: SecondaryHalf> Shared<R, A, B> {
    /// Creates the shared state of two halves whose threads do not run yet.
    pub(crate) fn new(rt: R, primary: A, secondary: B, transport: Transport) -> Shared<R, A, B> {
        Shared {
            rt,
            primary,
            secondary,
            transport,
            connecting: Mutex::new(()),
            stop: AtomicBool::new(false),
            begun: AtomicU32::new(0),
            is_unrung: AtomicBool::new(false),
            is_left: AtomicBool::new(false),
            is_driven: AtomicBool::new(false),
        }
    }

    /// Returns whether the threads are to stop.
    pub(crate) fn is_over(&self) -> bool {
        self.stop.load(Ordering::SeqCst)
    }

    /// Closes both ends.
    pub(crate) fn cut(&self) {
        let _connecting = self.connecting.lock(&self.rt);
        self.primary.close();
        self.secondary.close();
    }

    /// Wakes all threads: after a connection has opened, or to stop them.
    pub(crate) fn ring(&self) {
        self.primary.work_bell().ring_all(&self.rt);
        self.primary.writers_bell().ring_all(&self.rt);
        self.primary.pump_bell().ring_all(&self.rt);
        self.secondary.work_bell().ring_all(&self.rt);
        self.secondary.pump_bell().ring_all(&self.rt);
    }

    /// Sends the primary's next frame, if it has one and there is room for it, for a write of so many blocks that was begun. If that is
    /// short and the only one, no thread of the secondary is woken: whoever waits for the write takes the frame at once. A longer one is
    /// better done at both disks at the same time.
    pub(crate) fn send_begun(&self, blocks: u64) {
        let others = self.begun.fetch_add(1, Ordering::SeqCst);
        let Ok(done) = self.primary.send() else {
            return;
        };
        if others == 0 && blocks <= SHORT_BLOCKS && self.transport == Transport::Link {
            self.is_unrung.store(true, Ordering::SeqCst);
        } else {
            self.ring_for_push();
        }
        if done.completed.is_some() {
            self.primary.writers_bell().ring_all(&self.rt);
        }
    }

    /// Counts a write for which a thread waits from now on.
    pub(crate) fn note_waited_for(&self) {
        self.begun.fetch_sub(1, Ordering::SeqCst);
    }

    /// Wakes a thread of the secondary for a frame for which none was woken.
    pub(crate) fn ring_if_unrung(&self) {
        if self.is_unrung.swap(false, Ordering::SeqCst) {
            self.ring_for_push();
        }
    }

    /// Does a turn at the primary for a thread that waits for a write, unless another thread has its lock. Returns whether it did something.
    /// If no other write was begun, no thread is woken for what it pushed, as the barrier behind a write that is complete: that is left to
    /// whoever is next at the secondary.
    pub(crate) fn help_primary(&self, role: PrimaryRole) -> bool {
        let Some(turn) = self.primary.try_turn(role) else {
            return false;
        };
        if turn.pushed {
            if self.transport == Transport::Link && self.begun.load(Ordering::SeqCst) == 0 {
                self.is_left.store(true, Ordering::SeqCst);
            } else {
                self.ring_for_push();
            }
        }
        self.close_secondary(turn);
        turn.worked
    }

    /// Does what writers left: the peer takes it and answers, and the primary takes the answer.
    pub(crate) fn do_left(&self) {
        if self.is_left.load(Ordering::SeqCst) && self.help_secondary() {
            self.help_primary(PrimaryRole::Receiver);
        }
    }

    /// Does a turn at the secondary for a thread that waits for a write, unless another thread does one. Returns whether it did something.
    /// Over streams it does nothing: the pumps carry the frames.
    pub(crate) fn help_secondary(&self) -> bool {
        if self.transport == Transport::Streams {
            return false;
        }
        match self.secondary.try_turn(SecondaryRole::Receiver) {
            Some(turn) => {
                self.is_unrung.store(false, Ordering::SeqCst);
                self.is_left.store(false, Ordering::SeqCst);
                // The frames that it pushed are taken by the caller's next turn at the primary.
                self.close_primary(turn);
                turn.worked
            }
            None => {
                self.ring_if_unrung();
                false
            }
        }
    }

    // Wakes a thread that takes what the primary pushed.
    fn ring_for_push(&self) {
        match self.transport {
            Transport::Link => self.secondary.work_bell().ring_one(&self.rt),
            Transport::Streams => self.primary.pump_bell().ring_one(&self.rt),
        }
    }

    /// Does a turn at the primary. Wakes a thread for the frames that it pushed, and closes the secondary's end if the
    /// connection closed.
    pub(crate) fn turn_primary(&self, role: PrimaryRole) -> Turn {
        let turn = self.primary.turn(role);
        if turn.pushed {
            self.ring_for_push();
        }
        self.close_secondary(turn);
        turn
    }

    // Does a turn at the primary for a thread of its own, and over a link the peer's turn for what that pushed. From then on the thread drives
    // both nodes, until there is nothing to do: a block of a copy goes to the peer's disk and is acknowledged with no other thread to wake.
    // Returns whether it did something.
    fn drive(&self, role: PrimaryRole, drives: &mut bool) -> bool {
        let turn = self.primary.turn(role);
        self.close_secondary(turn);
        if turn.pushed {
            self.is_unrung.store(true, Ordering::SeqCst);
            *drives |= !self.is_driven.swap(true, Ordering::SeqCst);
        }
        let has_helped = (turn.pushed || *drives) && self.help_secondary();
        let worked = turn.worked || has_helped;
        if *drives && !worked {
            *drives = false;
            self.is_driven.store(false, Ordering::SeqCst);
            self.ring_if_unrung();
        }
        worked
    }

    // Closes the secondary's end if the connection closed in a turn at the primary.
    fn close_secondary(&self, turn: Turn) {
        if let Some(connection) = turn.closed {
            let _connecting = self.connecting.lock(&self.rt);
            self.secondary.close_lost(connection);
        }
    }

    /// Does a turn at the secondary. Wakes a thread for the frames that it pushed, and closes the primary's end if the
    /// connection closed.
    pub(crate) fn turn_secondary(&self, role: SecondaryRole) -> Turn {
        let turn = self.secondary.turn(role);
        if turn.pushed {
            match self.transport {
                Transport::Link => {
                    self.primary.work_bell().ring_one(&self.rt);
                    self.primary.writers_bell().ring_one(&self.rt);
                }
                Transport::Streams => self.secondary.pump_bell().ring_one(&self.rt),
            }
        }
        self.close_primary(turn);
        turn
    }

    // Closes the primary's end if the connection closed in a turn at the secondary.
    fn close_primary(&self, turn: Turn) {
        if let Some(connection) = turn.closed {
            let _connecting = self.connecting.lock(&self.rt);
            self.primary.close_lost(connection);
        }
    }
}

impl<R: Wait + Clock, A: PrimaryHalf, B: SecondaryHalf> Shared<R, A, B> {
    /// Runs the loop of a thread of the primary's half.
    pub(crate) fn work_primary(&self, role: PrimaryRole) {
        let bell = self.primary.work_bell();
        bell.watch();
        let mut looks = 0u32;
        let mut seen = bell.rings();
        let mut drives = false;
        for _ in self.rt.forever() {
            if self.is_over() {
                break;
            }
            let rings = bell.rings();
            let is_rung = rings != mem::replace(&mut seen, rings);
            let worked = match self.transport {
                Transport::Link => {
                    let looks_on = drives || looks == 0;
                    (looks_on || self.needs_looking(is_rung)) && self.drive(role, &mut drives)
                }
                Transport::Streams => self.turn_primary(role).worked,
            };
            if worked {
                if is_rung || drives {
                    looks = 0;
                }
            } else {
                bell.wait(&self.rt, rings, looks);
                looks = looks.saturating_add(1);
            }
        }
    }

    /// Runs the loop of a thread of the secondary's half.
    pub(crate) fn work_secondary(&self, role: SecondaryRole) {
        let bell = self.secondary.work_bell();
        bell.watch();
        let mut looks = 0u32;
        let mut seen = bell.rings();
        for _ in self.rt.forever() {
            if self.is_over() {
                break;
            }
            let rings = bell.rings();
            let is_rung = rings != mem::replace(&mut seen, rings);
            let needs_looking = looks == 0 || self.needs_looking(is_rung);
            if needs_looking && self.turn_secondary(role).worked {
                if is_rung {
                    looks = 0;
                }
            } else {
                bell.wait(&self.rt, rings, looks);
                looks = looks.saturating_add(1);
            }
        }
    }

    // Whether a thread looks for something to do: unless another one drives both nodes and nobody has rung.
    fn needs_looking(&self, is_rung: bool) -> bool {
        is_rung || !self.is_driven.load(Ordering::SeqCst)
    }

    /// Lets both disks finish all pending work, while both ends are closed.
    pub(crate) fn finish_disks(&self) {
        for _ in self.rt.forever() {
            if !self.primary.progress().has_unfinished {
                break;
            }
            self.turn_primary(PrimaryRole::Disk);
        }
        for _ in self.rt.forever() {
            if !self.secondary.progress().has_unfinished {
                break;
            }
            self.turn_secondary(SecondaryRole::Disk);
        }
    }
}
