//! Tests of packets that go through a link from one side to the other, or are refused because they cannot.
ghost use Rattle.std.specs.Prelude.{◌≡◌, ◌-◌, [], length, take, unwrap_or, None, Some, IfOk};

use crate::frames::links::direction;
use crate::frames::samples::{Sample, check_read, sampled};
use blocks::{Protocol, Refusal};
use endpoint::{PacketReceiver, PacketSender, joined};
use link::{PlainIn, PlainOut};
use packets::Packet;
use std::alloc::Global;
use std::process::Abort;

/// A direction of a link that holds one packet.
#[derive(Drop)]
struct Direction {
    sender: PacketSender<PlainOut>,
    taker: PacketReceiver<PlainIn>,
    // What was taken is what was pushed, without what waits in the queue.
    ghost lends: { taker.frames ≡ take (length sender.frames - unwrap_or sender.waiting 0) sender.frames },
}

impl Direction {
    fn new(alloc: Global) -> Result<Direction, Refusal>
        ensures first { IfOk result (λ d. (d.sender.number ≡ 1) × (d.taker.number ≡ 1)) }
        ensures unused { IfOk result (λ d. (d.sender.frames ≡ []) × (d.taker.frames ≡ [])) }
        ensures empty { IfOk result (λ d. (d.sender.waiting ≡ Some 0) × (d.sender.partly ≡ None)) }
    {
        let (sender, taker) = direction(alloc)?;
        Ok(Direction {
            sender: PacketSender::new(sender),
            taker: PacketReceiver::new(taker),
        })
    }

    /// Lends the direction's queue to the taking side for one take.
    fn carry(&mut self) -> Result<Packet, Refusal> {
        self.taker.ready()?;
        let Some(queue) = self.sender.give_queue() else {
            return Err(Refusal::NothingThere);
        };
        self.taker.lay_queue(queue);
        let taken = self.taker.take();
        if let Some(queue) = self.taker.give_queue() {
            self.sender.lay_queue(queue);
        }
        taken?
    }
}

// Makes a direction with this packet in it.
fn pushed(rt: &impl Abort, alloc: Global, sample: &'static Sample) -> Direction
    ensures first { (result.sender.number ≡ 1) × (result.taker.number ≡ 1) }
    ensures whole { result.sender.partly ≡ None }
{
    let packet = sampled(rt, alloc, sample);
    let mut direction = Direction::new(alloc).expect(rt, "a link");
    let pushed = direction.sender.push(packet);
    pushed.expect(rt, "an accepted packet");
    direction
}

fn goes_through(rt: &impl Abort, alloc: Global, sample: &'static Sample) {
    let mut direction = pushed(rt, alloc, sample);
    let read = direction.carry();
    joined(&direction.sender, &direction.taker);
    check_read(rt, alloc, 0, &read, Ok(sample));
}

#[test]
fn a_short_frame_goes_through_a_link(rt: HostRuntime) {
    goes_through(&rt, rt.alloc(), &Sample::Protocol(Protocol::C));
}

#[test]
fn a_block_goes_through_a_link(rt: HostRuntime) {
    goes_through(&rt, rt.alloc(), &Sample::Write);
}

#[test]
fn a_connection_drops_the_packets_of_the_one_before(rt: HostRuntime) {
    let mut direction = pushed(&rt, rt.alloc(), &Sample::Sizes(8));
    direction.sender.restart(2);
    direction.taker.restart(2);
    let read = direction.carry();
    check_read(&rt, rt.alloc(), 0, &read, Err(Refusal::NothingThere));
}

// Checks that the sender is full and refuses a packet.
fn check_full(rt: &impl Abort, sender: &mut PacketSender<PlainOut>, blocks: u64)
    requires { sender.old.partly ≡ None }
{
    let refused = sender.push(Packet::Sizes { blocks });
    assert_eq!(rt; refused, Err(Refusal::LinkFull));
}

#[test]
fn a_full_link_refuses_a_packet(rt: HostRuntime) {
    let Direction { mut sender, taker } = pushed(&rt, rt.alloc(), &Sample::Sizes(8));
    check_full(&rt, &mut sender, 16);
    joined(&sender, &taker);
}

// Checks that the taker has no queue and finds nothing.
fn check_empty(rt: &impl Abort, taker: &mut PacketReceiver<PlainIn>) {
    taker.ready().expect(rt, "an open end");
    let taken = taker.take().err();
    let is_there = taker.give_queue().is_some();
    assert_eq!(rt; (taken, is_there), (Some(Refusal::NothingThere), false));
}

#[test]
fn a_side_without_its_queue_is_full_or_empty(rt: HostRuntime) {
    let direction = Direction::new(rt.alloc()).expect(&rt, "a link");
    let Direction {
        mut sender,
        mut taker,
    } = direction;
    check_empty(&rt, &mut taker);
    let is_there = (sender.give_queue().is_some(), sender.give_queue().is_some());
    assert_eq!(rt; is_there, (true, false));
    check_full(&rt, &mut sender, 8);
}
