//! Calls of a secondary's core, for the rows of tables.
ghost use Rattle.std.specs.Prelude.{◌≡◌, ◌<◌, ◌≤◌, ◌*◌, ◌/◌, length, IfOk};
ghost use Rattle.packets.specs.Spelling.{IsSpellable};

use crate::cores::cases::{Core, Scene, Stepped, holds, run};
use crate::tuples::OWN;
use blocks::{Block, Command, Protocol, Refusal, Settings, Tuple, What};
use bytes::Bytes;
use packets::{Acknowledgement, Packet};
use secondary_core::{SecondaryCore, Usage};
use std::alloc::Global;
use std::process::Abort;

/// A frame, or the fault that replaces it. Blocks are filled with AA.
#[derive(Clone, Copy)]
pub(crate) enum Frame {
    Protocol(Protocol),
    Sizes(u64),
    Uuids(Tuple),
    /// A write of one block: the block, the number, the place.
    Data(u64, u64, u32),
    /// Write 2 of blocks 7 and 8, at place 1.
    TwoBlocks,
    /// A block of a resync, and its place.
    RsDataReply(u64, u32),
    Barrier(u32),
    SyncUuid(u64),
    /// Of write 1, block 2, at place 0.
    WriteAck,
    Fault(Refusal),
}

/// A call of a core.
#[derive(Clone, Copy)]
pub(crate) enum Step {
    Open(u32),
    Close,
    /// Takes a frame, if the end may, after making the room that it can need.
    Take(Frame),
    /// The disk does the item of a place, if it may start.
    Peer(u32),
    /// The disk fails the item of a place, if it may start.
    PeerFault(u32),
    /// Sends what is due.
    AckOut,
}

/// What a step returns.
#[derive(Clone, Copy, Debug, PartialEq, Eq)]
pub(crate) enum Outcome {
    Nothing,
    /// The command of the frame that was taken, and its place.
    Took(Command, Option<u32>),
    /// The command of the frame that went out, with the number of a write and its place, or the number of a
    /// barrier and its epoch's size.
    Sent(Command, u64, u32),
}

/// What a step returns, or why it is refused.
pub(crate) type Answer = Result<Outcome, Refusal>;

/// A step and what it returns.
pub(crate) type Row = (Step, Answer);

/// What a core holds.
#[derive(Clone, Copy)]
pub(crate) enum Fact {
    /// The number of the connection.
    Number(u32),
    HelloDone(bool),
    Open(bool),
    Drained(bool),
    Consistent(bool),
    ItemsTaken(u32),
    Tuple(Tuple),
    Usage(Usage),
}

/// A part of what a secondary goes through.
#[derive(Clone, Copy)]
pub(crate) enum Part {
    Rows(&'static [Row]),
    /// This frame is refused.
    Refused(Frame, Refusal),
    Holds(&'static [Fact]),
}

/// The settings of the worked rows, under protocol C.
pub(crate) const SETTINGS: Settings = Settings::STANDARD;

pub(crate) const DONE: Answer = Ok(Outcome::Nothing);

const PROTOCOL_TOOK: Answer = Ok(Outcome::Took(Command::Protocol, None));

/// The end opens, and takes the protocol that the primary names.
pub(crate) const OPENED_IN_A: Part = Part::Rows(&[
    (Step::Open(1), DONE),
    (Step::Take(Frame::Protocol(Protocol::A)), PROTOCOL_TOOK),
]);

pub(crate) const OPENED_IN_B: Part = Part::Rows(&[
    (Step::Open(1), DONE),
    (Step::Take(Frame::Protocol(Protocol::B)), PROTOCOL_TOOK),
]);

pub(crate) const OPENED: Part = Part::Rows(&[
    (Step::Open(1), DONE),
    (Step::Take(Frame::Protocol(Protocol::C)), PROTOCOL_TOOK),
]);

/// The rest of the hello of the first connection.
pub(crate) const GREETED: Part = Part::Rows(&[
    (
        Step::Take(Frame::Sizes(8)),
        Ok(Outcome::Took(Command::Sizes, None)),
    ),
    (
        Step::Take(Frame::Uuids(OWN)),
        Ok(Outcome::Took(Command::Uuids, None)),
    ),
    (Step::AckOut, Ok(Outcome::Sent(Command::Protocol, 0, 0))),
    (Step::AckOut, Ok(Outcome::Sent(Command::Sizes, 0, 0))),
    (Step::AckOut, Ok(Outcome::Sent(Command::Uuids, 0, 0))),
    (Step::AckOut, Err(Refusal::NothingThere)),
]);

fn blocks_of(alloc: Global, first: u64, number: u64, place: u32) -> Result<Packet, Refusal>
    ensures { IfOk result IsSpellable }
{
    let contents = Bytes::copy_from_slice(alloc, &[0xAA; 4096])?;
    let first = Block(first % 8);
    if number == 0 {
        return Ok(Packet::RsDataReply {
            first,
            place,
            contents,
        });
    }
    Ok(Packet::Data {
        first,
        number,
        place,
        contents,
    })
}

fn two_blocks(alloc: Global) -> Result<Packet, Refusal>
    ensures { IfOk result IsSpellable }
{
    Ok(Packet::Data {
        first: Block(7),
        number: 2,
        place: 1,
        contents: Bytes::copy_from_slice(alloc, &[0xAA; 8192])?,
    })
}

fn packet_of(alloc: Global, frame: Frame) -> Result<Packet, Refusal>
    ensures { IfOk result IsSpellable }
{
    match frame {
        Frame::Protocol(protocol) => Ok(Packet::Protocol(protocol)),
        Frame::Sizes(blocks) => Ok(Packet::Sizes { blocks }),
        Frame::Uuids(tuple) => Ok(Packet::Uuids(tuple)),
        Frame::Data(first, number, place) => blocks_of(alloc, first, number, place),
        Frame::TwoBlocks => two_blocks(alloc),
        Frame::RsDataReply(first, place) => blocks_of(alloc, first, 0, place),
        Frame::Barrier(number) => Ok(Packet::Barrier { number }),
        Frame::SyncUuid(word) => Ok(Packet::SyncUuid { word }),
        Frame::WriteAck => Ok(Packet::WriteAck(Acknowledgement {
            first: Block(2),
            number: 1,
            count: 1,
            place: 0,
        })),
        Frame::Fault(fault) => Err(fault),
    }
}

fn take(core: &mut SecondaryCore, frame: Result<Packet, Refusal>) -> Answer
    requires { IfOk frame IsSpellable }
{
    core.may_take()?;
    core.ready()?;
    match core.take(frame)?.what {
        What::Frame(command, place) => Ok(Outcome::Took(command, place)),
        _ => Ok(Outcome::Nothing),
    }
}

fn ack_out(core: &mut SecondaryCore) -> Answer {
    let packet = core.due()?;
    core.sent();
    let (number, place) = match packet {
        Packet::RecvAck(ack) | Packet::WriteAck(ack) | Packet::RsWriteAck(ack) => {
            (ack.number, ack.place)
        }
        Packet::BarrierAck { number, size } => (u64::from(number), size),
        _ => (0, 0),
    };
    Ok(Outcome::Sent(packet.command(), number, place))
}

impl Stepped for SecondaryCore {
    type Step = Step;

    type Outcome = Outcome;

    type Fact = Fact;

    fn do_step(&mut self, alloc: Global, step: Step) -> Answer {
        match step {
            Step::Open(number) => self.open(number)?,
            Step::Close => self.close()?,
            Step::Take(frame) => return take(self, packet_of(alloc, frame)),
            Step::Peer(place) => {
                self.start(place)?;
                self.done(place);
            }
            Step::PeerFault(place) => {
                self.start(place)?;
                self.failed(place);
            }
            Step::AckOut => return ack_out(self),
        }
        Ok(Outcome::Nothing)
    }

    fn is_true(&self, fact: Fact) -> bool {
        match fact {
            Fact::Number(wanted) => self.connection_number() == wanted,
            Fact::HelloDone(wanted) => self.is_hello_done() == wanted,
            Fact::Open(wanted) => self.is_open() == wanted,
            Fact::Drained(wanted) => self.is_drained() == wanted,
            Fact::Consistent(wanted) => self.is_consistent() == wanted,
            Fact::ItemsTaken(wanted) => self.items_taken() == wanted,
            Fact::Tuple(wanted) => self.tuple() == wanted,
            Fact::Usage(wanted) => self.usage() == wanted,
        }
    }
}

impl Core for SecondaryCore {
    type Start = Settings;

    type Part = Part;

    type Frame = Frame;

    fn fresh(alloc: Global, settings: &Settings) -> Result<SecondaryCore, Refusal> {
        SecondaryCore::new(alloc, *settings, OWN)
    }

    fn refused(frame: Frame, refusal: Refusal) -> Part {
        Part::Refused(frame, refusal)
    }

    fn go(&mut self, rt: &impl Abort, scene: Scene, part: &Part) {
        match part {
            Part::Rows(rows) => run(rt, self, scene, rows),
            Part::Refused(frame, refusal) => {
                run(rt, self, scene, &[(Step::Take(*frame), Err(*refusal))])
            }
            Part::Holds(facts) => holds(rt, self, scene.name, facts),
        }
    }
}
