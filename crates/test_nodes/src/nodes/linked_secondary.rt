//! A secondary over a link whose other end the test has, and its calls, for tables.
use crate::nodes::answers::{Answer, DONE, Spot};
use crate::nodes::cases;
use crate::nodes::cases::Node;
use crate::nodes::other_end::{Frames, linked};
use crate::tuples::OWN;
use blocks::{Block, MemStore, Refusal, Settings, Tuple};
use link::{PlainIn, PlainOut};
use secondary::Secondary;
use secondary_core::Usage;
use std::alloc::Global;
use std::process::Abort;

pub(crate) type LinkedSecondary = Secondary<PlainOut, PlainIn, MemStore>;

/// A call of a secondary.
#[derive(Clone, Copy)]
pub(crate) enum Step {
    Receive,
    Peer(u32),
    AckOut,
    Close,
}

/// What a secondary's queries return.
#[derive(Clone, Copy, Debug, PartialEq, Eq)]
pub(crate) struct State {
    pub(crate) is_open: bool,
    pub(crate) is_hello_done: bool,
    pub(crate) is_drained: bool,
    pub(crate) is_consistent: bool,
    pub(crate) tuple: Tuple,
    /// The number of the connection.
    pub(crate) number: u32,
    pub(crate) usage: Usage,
    /// The place that the disk does next.
    pub(crate) next: Result<u32, Refusal>,
}

pub(crate) type Before = cases::Before<Step>;

pub(crate) type After = cases::After<Step, State, &'static [(u64, u8)]>;

pub(crate) type Case = cases::Case<Step, State, &'static [(u64, u8)]>;

fn is_filled(node: &mut LinkedSecondary, block: u64, byte: u8) -> bool {
    let mut read = [!byte; 4096];
    node.read_block(Block(block), &mut read).is_ok() && read == [byte; 4096]
}

impl Node for LinkedSecondary {
    type Step = Step;

    type State = State;

    /// Blocks of its disk, and the byte that fills each.
    type Left = &'static [(u64, u8)];

    fn fresh(alloc: Global, settings: Settings) -> Result<LinkedSecondary, Refusal> {
        let disk = MemStore::zeroed(alloc, 8)?;
        Secondary::new(alloc, settings, disk, OWN)
    }

    fn connect(&mut self, alloc: Global, frames: Frames) -> Result<(), Refusal> {
        if self.connection_number() == u32::MAX {
            return Err(Refusal::StreamFull);
        }
        let (ends, queue) = linked(alloc, frames)?;
        self.open(ends.outward, ends.inward)?;
        self.lay_inward(queue);
        Ok(())
    }

    fn take(&mut self) -> Answer {
        self.receive()
    }

    fn do_step(&mut self, _alloc: Global, step: Step) -> Answer {
        match step {
            Step::Receive => self.receive(),
            Step::Peer(place) => self.peer(place),
            Step::AckOut => self.ack_out(),
            Step::Close => {
                self.close()?;
                DONE
            }
        }
    }

    fn state(&self) -> State {
        State {
            is_open: self.is_open(),
            is_hello_done: self.is_hello_done(),
            is_drained: self.is_drained(),
            is_consistent: self.is_consistent(),
            tuple: self.tuple(),
            number: self.connection_number(),
            usage: self.usage(),
            next: self.next(),
        }
    }

    fn leaves(&mut self, rt: &impl Abort, spot: Spot, left: &&'static [(u64, u8)]) {
        for (block, byte) in *left {
            let is_held = is_filled(self, *block, *byte);
            assert!(rt;
                is_held,
                "case {}, frame {}: block {block}",
                spot.case, spot.frame
            );
        }
    }
}
