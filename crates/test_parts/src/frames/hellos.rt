//! Tests of the hello at an end of a link, over frames of any bytes, on one connection after another.
ghost use Rattle.std.specs.Prelude.{◌≡◌, ◌≤◌, length};
ghost use Rattle.test_parts.specs.Lending.{taken_in};

use crate::frames::links::direction;
use crate::frames::samples::{Sample, check_read};
use crate::vectors::{BARRIER, OTHER_MAGIC, SHORT_BARRIER, SIZES, WRONG_BARRIER};
use blocks::Refusal;
use endpoint::PacketReceiver;
use link::{FrameOut, PlainIn, PlainOut};
use packets::{Frame, Packet};
use std::alloc::Global;
use std::process::Abort;

/// A direction of a link, frames of any bytes on one side and packets on the other.
#[derive(Drop)]
struct Frames {
    sender: PlainOut,
    taker: PacketReceiver<PlainIn>,
    connection: u32,
    ghost sending: { sender.number ≡ connection },
    ghost taking: { taker.number ≡ connection },
    ghost lends: { taker.frames ≡ taken_in sender.queue },
}

impl Frames {
    fn new(alloc: Global) -> Result<Frames, Refusal> {
        let (sender, taker) = direction(alloc)?;
        Ok(Frames {
            sender,
            taker: PacketReceiver::new(taker),
            connection: 1,
        })
    }

    /// Begins the next connection at both sides.
    fn restart(&mut self) -> Result<(), Refusal> {
        let Some(next) = self.connection.checked_add(1) else {
            return Err(Refusal::JournalFull);
        };
        self.sender.restart(next);
        self.taker.restart(next);
        self.connection = next;
        Ok(())
    }

    /// Offers a frame of these bytes, and lends the direction's queue to the taking side for one take.
    fn receive(&mut self, bytes: &[u8]) -> Result<Packet, Refusal>
        requires { length bytes.now ≤ 40 }
    {
        if self.sender.offer(Frame::inline(bytes)).is_err() {
            return Err(Refusal::LinkFull);
        }
        self.taker.ready()?;
        let Some(queue) = self.sender.give_queue() else {
            return Err(Refusal::NothingThere);
        };
        self.taker.lay_queue(queue);
        let taken = self.taker.take();
        if let Some(queue) = self.taker.give_queue() {
            self.sender.lay_queue(queue);
        }
        taken?
    }
}

/// The bytes of a frame, and what they are read as.
type Row = (&'static [u8], Result<&'static Sample, Refusal>);

// Checks that frames of these bytes are read as their rows say, one after another.
fn check_each_read(rt: &impl Abort, alloc: Global, frames: &mut Frames, rows: &'static [Row]) {
    for (row, (bytes, wanted)) in rows.iter().enumerate() {
        assert!(rt; bytes.len() <= 40);
        check_read(rt, alloc, row, &frames.receive(bytes), *wanted);
    }
}

/// Frames of a hello, which has three, and the frame after them.
static HELLO: [Row; 4] = [
    (&WRONG_BARRIER, Err(Refusal::BadCommand)),
    (&WRONG_BARRIER, Err(Refusal::BadCommand)),
    (&WRONG_BARRIER, Err(Refusal::BadCommand)),
    (&WRONG_BARRIER, Err(Refusal::BadField)),
];

#[test]
fn a_hello_refuses_another_command_first(rt: HostRuntime) {
    let alloc = rt.alloc();
    let mut frames = Frames::new(alloc).expect(&rt, "a link");
    check_each_read(&rt, alloc, &mut frames, &HELLO);
    // The next connection begins with a hello.
    frames.restart().expect(&rt, "a connection");
    check_each_read(&rt, alloc, &mut frames, &HELLO);
}

static FRAMES: [Row; 4] = [
    (&SIZES, Ok(&Sample::Sizes(8))),
    (&OTHER_MAGIC, Err(Refusal::BadMagic)),
    (&SHORT_BARRIER, Err(Refusal::BadLength)),
    (&BARRIER, Ok(&Sample::Barrier(1))),
];

#[test]
fn frames_are_read_or_refused(rt: HostRuntime) {
    let alloc = rt.alloc();
    let mut frames = Frames::new(alloc).expect(&rt, "a link");
    check_each_read(&rt, alloc, &mut frames, &FRAMES);
}
