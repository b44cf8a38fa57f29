//! Frames that go over a measured link.
ghost use Rattle.std.specs.Prelude.{◌≡◌, None, IfOk};
ghost use Rattle.packets.specs.Cutting.{IsCut};
ghost use Rattle.packets.specs.Spelling.{IsSpellable};

use blocks::{Block, Refusal};
use bytes::Bytes;
use link::{FrameIn, FrameOut};
use packets::{Acknowledgement, Frame, Packet, encode};
use std::alloc::Global;
use std::sync::Wait;
use std::thread;

/// Encodes a packet. The frame is whole.
fn spelled(packet: &Packet) -> Result<Frame, Refusal>
    requires { IsSpellable packet.now }
    ensures { IfOk result (λ frame. IsCut frame) }
{
    encode(packet)
}

/// A packet that is sent again and again.
#[derive(Drop)]
pub(crate) enum Sample {
    /// A write of one block, with these contents.
    Write(Bytes),
    /// An acknowledgement of one block.
    Acknowledgement,
}

impl Sample {
    /// Makes a write of one block.
    pub(crate) fn write(alloc: Global) -> anyhow::Result<Sample> {
        Ok(Sample::Write(Bytes::copy_from_slice(alloc, &[0x5A; 4096])?))
    }

    /// Returns the number of bytes of its frame.
    pub(crate) fn bytes(&self) -> usize {
        match self {
            Sample::Write(_) => 4128,
            Sample::Acknowledgement => 32,
        }
    }

    /// Encodes its frame.
    pub(crate) fn frame(&self) -> Result<Frame, Refusal>
        ensures { IfOk result (λ frame. IsCut frame) }
    {
        match self {
            Sample::Write(contents) => write(contents),
            Sample::Acknowledgement => acknowledgement(),
        }
    }
}

/// Encodes the frame of a write of one block.
fn write(contents: &Bytes) -> Result<Frame, Refusal>
    ensures { IfOk result (λ frame. IsCut frame) }
{
    if contents.len() != 4096 {
        return Err(Refusal::BadLength);
    }
    spelled(&Packet::Data {
        first: Block(0),
        number: 1,
        place: 0,
        contents: contents.clone()?,
    })
}

/// Encodes the frame of an acknowledgement of one block.
fn acknowledgement() -> Result<Frame, Refusal>
    ensures { IfOk result (λ frame. IsCut frame) }
{
    spelled(&Packet::WriteAck(Acknowledgement {
        first: Block(0),
        number: 1,
        count: 1,
        place: 0,
    }))
}

/// Returns the number of bytes of a frame.
pub(crate) fn length(frame: &Frame) -> usize {
    let (front, end) = frame.parts();
    front.len().saturating_add(end.len())
}

/// Offers a frame until it is accepted.
pub(crate) fn send<R: Wait, O: FrameOut>(rt: &R, end: &mut O, frame: Frame)
    requires whole { IsCut frame }
    requires none { (O.state end.old).partly ≡ None }
    ensures { (O.state end.new).partly ≡ None }
{
    let mut frame = frame;
    for _ in rt.forever() {
        match end.offer(frame) {
            Ok(()) => return,
            Err(offered) => frame = offered.frame,
        }
        thread::yield_now();
    }
    unreachable!()
}

/// Asks for a frame until there is one.
pub(crate) fn receive<R: Wait, I: FrameIn>(rt: &R, end: &mut I) -> Result<Frame, Refusal> {
    for _ in rt.forever() {
        end.ready()?;
        match end.take() {
            Err(Refusal::NothingThere) => thread::yield_now(),
            answer => return answer,
        }
    }
    unreachable!()
}
