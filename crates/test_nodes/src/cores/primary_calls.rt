//! Calls that take a primary's core through tables.
use crate::contents::filled;
use crate::cores::cases::{Core, Scene, Stepped, holds, run};
use crate::cores::primary_tables::{
    Answer, Fact, Frame, Outcome, PROTOCOL_WENT, Part, SIZES_WENT, Start, Step, UUIDS_WENT,
};
use bitmap::Bitmap;
use blocks::{Block, Decision, Done, MAX_DEVICE_BLOCKS, Refusal, Tuple, What};
use bytes::Bytes;
use packets::{Acknowledgement, Packet};
use primary_core::{Fate, PrimaryCore};
use std::alloc::Global;
use std::process::Abort;

fn ack(first: u64, number: u64, place: u32, count: u32) -> Acknowledgement {
    Acknowledgement {
        first: Block(first),
        number,
        count,
        place,
    }
}

fn data(alloc: Global, first: u64, name: (u64, u32), fill: (u8, u8)) -> Result<Packet, Refusal> {
    Ok(Packet::Data {
        first: Block(first),
        number: name.0,
        place: name.1,
        contents: filled(alloc, fill.0, fill.1)?,
    })
}

fn packet_of(alloc: Global, frame: Frame) -> Result<Packet, Refusal> {
    match frame {
        Frame::Protocol(protocol) => Ok(Packet::Protocol(protocol)),
        Frame::Sizes(blocks) => Ok(Packet::Sizes { blocks }),
        Frame::Uuids(tuple) => Ok(Packet::Uuids(tuple)),
        Frame::Data(first, number, place, byte) => data(alloc, first, (number, place), (1, byte)),
        Frame::TwoBlocks(first, number, place, byte) => {
            data(alloc, first, (number, place), (2, byte))
        }
        Frame::RsDataReply(first, place, byte) => Ok(Packet::RsDataReply {
            first: Block(first),
            place,
            contents: filled(alloc, 1, byte)?,
        }),
        Frame::Barrier(number) => Ok(Packet::Barrier { number }),
        Frame::SyncUuid(word) => Ok(Packet::SyncUuid { word }),
        Frame::RecvAck(first, number, place) => Ok(Packet::RecvAck(ack(first, number, place, 1))),
        Frame::WriteAck(first, number, place) => Ok(Packet::WriteAck(ack(first, number, place, 1))),
        Frame::WideAck(first, number, place) => Ok(Packet::WriteAck(ack(first, number, place, 2))),
        Frame::RsWriteAck(first, place) => Ok(Packet::RsWriteAck(ack(first, 0, place, 1))),
        Frame::BarrierAck(number, size) => Ok(Packet::BarrierAck { number, size }),
        Frame::Fault(fault) => Err(fault),
    }
}

fn outcome_of(done: Done) -> Outcome {
    if done.completed.is_none() && done.barrier.is_none() && !done.synced {
        return match done.what {
            What::Write(number) => Outcome::Accepted(number),
            What::Frame(command, place) => Outcome::Went(command, place),
            what => Outcome::Did(what),
        };
    }
    Outcome::More(done.what, done.completed, done.barrier, done.synced)
}

fn send(core: &mut PrimaryCore, alloc: Global, frame: Frame) -> Answer {
    let wanted = packet_of(alloc, frame)?;
    let packet = core.due()?;
    let done = core.sent();
    if packet != wanted {
        return Ok(Outcome::Other(packet.command()));
    }
    Ok(outcome_of(done))
}

fn resync(core: &mut PrimaryCore, alloc: Global, byte: u8) -> Answer {
    let contents = Bytes::copy_from_slice(alloc, &[byte; 4096])?;
    let block = core.resync_block()?;
    Ok(outcome_of(core.resync_read(block, contents)))
}

fn receipt(core: &mut PrimaryCore, number: u64) -> Answer {
    let entry = core.take_completed(number)?;
    let Fate::Completed { linked, home } = entry.fate() else {
        return Err(Refusal::NotCompleted);
    };
    let home = home.map(|home| (home.connection(), home.place()));
    Ok(Outcome::Receipt(entry.first(), entry.count(), linked, home))
}

fn given(core: &PrimaryCore, alloc: Global, number: u64, fill: (u8, u8)) -> Answer {
    let wanted = filled(alloc, fill.0, fill.1)?;
    let write = core.start(number)?;
    let range = write.range();
    let is_same = *write.contents() == wanted;
    Ok(Outcome::Given(write.number(), range.first.0, range.count, is_same))
}

impl Stepped for PrimaryCore {
    type Step = Step;

    type Outcome = Outcome;

    type Fact = Fact;

    fn do_step(&mut self, alloc: Global, step: Step) -> Answer {
        match step {
            Step::Open(sync, loss) => {
                self.open(sync, loss)?;
                Ok(Outcome::Nothing)
            }
            Step::Close => Ok(Outcome::Closed(self.close()?)),
            Step::Submit(first, blocks, byte) => {
                let bytes = filled(alloc, blocks, byte)?;
                Ok(outcome_of(self.submit(first, &bytes)?))
            }
            Step::SubmitPart => {
                let bytes = Bytes::copy_from_slice(alloc, &[0xAA; 100])?;
                Ok(outcome_of(self.submit(0, &bytes)?))
            }
            Step::Given(number, blocks, byte) => given(self, alloc, number, (blocks, byte)),
            Step::Next => Ok(Outcome::Next(self.next())),
            Step::Local(number) => {
                self.start(number)?;
                Ok(outcome_of(self.done(number)))
            }
            Step::LocalFail(number) => {
                self.start(number)?;
                Ok(outcome_of(self.failed(number)))
            }
            Step::Send(frame) => send(self, alloc, frame),
            Step::Take(frame) => Ok(outcome_of(self.take(packet_of(alloc, frame))?)),
            Step::Resync(byte) => resync(self, alloc, byte),
            Step::Receipt(number) => receipt(self, number),
        }
    }

    fn is_true(&self, fact: Fact) -> bool {
        match fact {
            Fact::Open(wanted) => self.is_open() == wanted,
            Fact::Established(wanted) => self.is_established() == wanted,
            Fact::Resync(wanted) => self.is_resync() == wanted,
            Fact::Tuple(wanted) => self.tuple() == wanted,
            Fact::Peer(wanted) => self.peer() == wanted,
            Fact::Connections(wanted) => self.connection_number() == wanted,
            Fact::Accepted(wanted) => self.accepted() == wanted,
            Fact::OpenWrites(wanted) => self.open_writes() == wanted,
            Fact::Unanswered(wanted) => self.unanswered_writes() == wanted,
            Fact::OpenEpochs(wanted) => self.open_epochs() == wanted,
            Fact::FirstUnreleased(wanted) => self.first_unreleased() == wanted,
            Fact::Places(wanted) => self.places() == wanted,
            Fact::Unsent(wanted) => self.unsent() == wanted,
        }
    }
}

fn check_marks(rt: &impl Abort, core: &PrimaryCore, name: &str, blocks: &[usize]) {
    assert_eq!(rt; core.marks() as usize, blocks.len(), "{name}");
    for block in blocks {
        assert!(rt;
            core.is_marked(Block(*block as u64)),
            "{name}: block {block}"
        );
    }
}

fn decides(
    rt: &impl Abort,
    core: &mut PrimaryCore,
    scene: Scene,
    peer: Tuple,
    decided: Result<Decision, Refusal>,
) {
    let outcome = match decided {
        Ok(decision) => Ok(Outcome::Did(What::Decided(decision))),
        Err(refusal) => Err(refusal),
    };
    run(
        rt,
        core,
        scene,
        &[(Step::Take(Frame::Uuids(peer)), outcome)],
    );
    holds(
        rt,
        core,
        scene.name,
        &[Fact::Open(decided.is_ok()), Fact::Peer(Some(peer))],
    );
}

// Exchanges the protocol, the size and the identifiers of both ends, and checks the decision.
fn greet(
    rt: &impl Abort,
    core: &mut PrimaryCore,
    scene: Scene,
    words: (u64, u64),
    (own, peer): (Tuple, Tuple),
    decided: Decision,
) {
    let settings = core.settings();
    let protocol = Frame::Protocol(settings.protocol);
    let sizes = Frame::Sizes(u64::from(settings.blocks));
    let rows = [
        (Step::Open(words.0, words.1), Ok(Outcome::Nothing)),
        (Step::Send(protocol), PROTOCOL_WENT),
        (Step::Send(sizes), SIZES_WENT),
        (Step::Send(Frame::Uuids(own)), UUIDS_WENT),
        (Step::Send(Frame::Uuids(own)), Err(Refusal::NothingThere)),
        (Step::Take(protocol), PROTOCOL_WENT),
        (Step::Take(sizes), SIZES_WENT),
    ];
    run(rt, core, scene, &rows);
    decides(rt, core, scene, peer, Ok(decided));
}

fn marks_of(alloc: Global, start: &Start) -> Result<Bitmap, Refusal> {
    let mut marks = Vec::from_elem(alloc, false, start.settings.blocks as usize)?;
    for block in start.marked {
        if let Some(mark) = marks.get_mut(*block) {
            *mark = true;
        }
    }
    if marks.len() > MAX_DEVICE_BLOCKS as usize {
        return Err(Refusal::BadSetting);
    }
    Bitmap::from_marks(alloc, &marks)
}

impl Core for PrimaryCore {
    type Start = Start;

    type Part = Part;

    type Frame = Frame;

    fn fresh(alloc: Global, start: &Start) -> Result<PrimaryCore, Refusal> {
        let marks = marks_of(alloc, start)?;
        PrimaryCore::new(alloc, start.settings, start.own, marks)
    }

    fn refused(frame: Frame, refusal: Refusal) -> Part {
        Part::Refused(frame, refusal)
    }

    fn go(&mut self, rt: &impl Abort, scene: Scene, part: &Part) {
        match part {
            Part::Rows(rows) => run(rt, self, scene, rows),
            Part::Greeting(words, tuples, decided) => {
                greet(rt, self, scene, *words, *tuples, *decided)
            }
            Part::Decides(peer, decided) => decides(rt, self, scene, *peer, *decided),
            Part::Refused(frame, refusal) => {
                run(rt, self, scene, &[(Step::Take(*frame), Err(*refusal))])
            }
            Part::Holds(facts) => holds(rt, self, scene.name, facts),
            Part::Marks(blocks) => check_marks(rt, self, scene.name, blocks),
        }
    }
}
