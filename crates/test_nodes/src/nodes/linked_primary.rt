//! A primary over a link whose other end the test has, and its calls, for tables.
use crate::nodes::answers::{Answer, DONE, Spot};
use crate::nodes::cases;
use crate::nodes::cases::Node;
use crate::nodes::other_end::{Frames, linked};
use crate::tuples::OWN;
use blocks::{Block, FaultStore, MemStore, Refusal, Settings, Tuple};
use bytes::Bytes;
use link::{PlainIn, PlainOut};
use primary::{CompletionKind, Primary};
use std::alloc::Global;
use std::process::Abort;

pub(crate) type LinkedPrimary = Primary<PlainOut, PlainIn, FaultStore>;

/// A call of a primary.
#[derive(Clone, Copy)]
pub(crate) enum Step {
    /// A write of this block, filled with AA.
    Submit(u64),
    /// The same of two blocks, this one and the next.
    SubmitTwo(u64),
    Local(u64),
    /// The disk fails the write after its first block.
    LocalFault(u64),
    Send,
    AckIn,
    Resync,
    Close,
    /// Asks for the receipt of a write.
    Receipt(u64),
}

/// A call, and what it did or why it is refused.
pub(crate) type Row = (Step, Answer);

/// What a primary's queries return.
#[derive(Clone, Copy, Debug, PartialEq, Eq)]
pub(crate) struct State {
    pub(crate) is_open: bool,
    pub(crate) is_established: bool,
    pub(crate) is_resync: bool,
    pub(crate) tuple: Tuple,
    pub(crate) connections: u32,
    pub(crate) accepted: u64,
    /// How many writes are neither completed nor failed.
    pub(crate) incomplete: u32,
    pub(crate) unanswered: u32,
    pub(crate) open_epochs: u64,
    pub(crate) marks: u32,
    /// Whether block 2 is marked.
    pub(crate) is_marked: bool,
}

pub(crate) type Before = cases::Before<Step>;

pub(crate) type After = cases::After<Step, State, Result<Told, Refusal>>;

pub(crate) type Case = cases::Case<Step, State, Result<Told, Refusal>>;

/// How write 1 was completed, its first block and its block count, and its connection and place.
pub(crate) type Told = (CompletionKind, u64, u64, Option<(u32, u32)>);

fn receipt(node: &mut LinkedPrimary) -> Result<Told, Refusal> {
    let receipt = node.take_completed(1)?;
    let home = receipt.home();
    Ok((
        receipt.kind(),
        receipt.first().0,
        receipt.count(),
        home.map(|home| (home.connection(), home.place())),
    ))
}

// Submits a write of as many blocks as these bytes have.
fn submit(node: &mut LinkedPrimary, alloc: Global, first: u64, bytes: &[u8]) -> Answer {
    let bytes = Bytes::copy_from_slice(alloc, bytes)?;
    Ok(node.submit(first, &bytes)?.1)
}

impl Node for LinkedPrimary {
    type Step = Step;

    type State = State;

    /// The receipt of write 1.
    type Left = Result<Told, Refusal>;

    fn fresh(alloc: Global, settings: Settings) -> Result<LinkedPrimary, Refusal> {
        let disk = MemStore::zeroed(alloc, 8)?;
        let marks = Vec::from_elem(alloc, false, 8)?;
        Primary::new(alloc, settings, FaultStore::new(disk), OWN, marks)
    }

    // The words are 5 and 7.
    fn connect(&mut self, alloc: Global, frames: Frames) -> Result<(), Refusal> {
        let (ends, queue) = linked(alloc, frames)?;
        self.open(ends.outward, ends.inward, 5, 7)?;
        self.lay_inward(queue);
        Ok(())
    }

    fn take(&mut self) -> Answer {
        self.ack_in()
    }

    fn do_step(&mut self, alloc: Global, step: Step) -> Answer {
        match step {
            Step::Submit(first) => submit(self, alloc, first, &[0xAA; 4096]),
            Step::SubmitTwo(first) => submit(self, alloc, first, &[0xAA; 8192]),
            Step::Local(number) => self.local(number),
            Step::LocalFault(number) => self.local_fault(number, 1),
            Step::Send => self.send(),
            Step::AckIn => self.ack_in(),
            Step::Resync => self.resync_next(),
            Step::Close => {
                self.close()?;
                DONE
            }
            Step::Receipt(number) => {
                self.take_completed(number)?;
                DONE
            }
        }
    }

    fn state(&self) -> State {
        State {
            is_open: self.is_open(),
            is_established: self.is_established(),
            is_resync: self.is_resync(),
            tuple: self.tuple(),
            connections: self.connection_number(),
            accepted: self.accepted(),
            incomplete: self.incomplete(),
            unanswered: self.unanswered(),
            open_epochs: self.open_epochs(),
            marks: self.marks(),
            is_marked: self.is_marked(Block(2)),
        }
    }

    fn leaves(&mut self, rt: &impl Abort, spot: Spot, left: &Result<Told, Refusal>) {
        assert_eq!(rt;
            receipt(self),
            *left,
            "case {}, frame {}",
            spot.case,
            spot.frame
        );
    }
}
