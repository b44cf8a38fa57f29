//! Running commands over a pair.
use crate::command::Command;
use crate::{print, reading};
use blocks::{BLOCK_BYTES, Block, Decision, Refusal, Reply, What};
use bytes::Bytes;
use pair::{Event, Pair, Side};
use std::alloc::{AllocError, Global};
use std::io::{self, Write};

/// How many frames each end's hello has.
const HELLO_FRAMES: usize = 3;

/// Runs a command over the pair, and prints what it did. A refusal is printed, too.
pub(crate) fn perform<W: Write>(
    alloc: Global,
    pair: &mut Pair,
    command: Command,
    out: &mut W,
) -> io::Result<()> {
    match command {
        Command::Pair(_) => Ok(()),
        Command::Open { sync, loss } => step(pair, "open", Event::Open { sync, loss }, out),
        Command::Connect { sync, loss } => connect(pair, sync, loss, out),
        Command::Submit { first, count, byte } => submit(alloc, pair, first, count, byte, out),
        Command::Local(number) => step(pair, "local", Event::Local(number), out),
        Command::LocalFault(number, kept) => {
            step(pair, "localfail", Event::LocalFault(number, kept), out)
        }
        Command::Send => step(pair, "send", Event::Send, out),
        Command::Receive => step(pair, "receive", Event::Receive, out),
        Command::Peer(place) => peer(pair, place, out),
        Command::PeerFault(place, kept) => peer_fault(pair, place, kept, out),
        Command::AckOut => step(pair, "ackout", Event::AckOut, out),
        Command::AckIn => step(pair, "ackin", Event::AckIn, out),
        Command::Resync => step(pair, "resync", Event::Resync, out),
        Command::ResyncFault => step(pair, "resyncfail", Event::ResyncFault, out),
        Command::Close(Side::Primary) => step(pair, "close", Event::ClosePrimary, out),
        Command::Close(Side::Secondary) => step(pair, "close", Event::CloseSecondary, out),
        Command::Marks => reading::marks(pair, out),
        Command::Diff => reading::diff(pair, out),
        Command::Tuples => reading::tuples(pair, out),
        Command::Read { side, block } => reading::read(pair, side, Block(block), out),
        Command::Status => reading::status(alloc, pair, out),
    }
}

fn step<W: Write>(pair: &mut Pair, name: &str, event: Event, out: &mut W) -> io::Result<()> {
    let reply = pair.step(&event);
    print::reply(out, name, &reply)
}

/// Submits blocks filled with a byte.
fn submit<W: Write>(
    alloc: Global,
    pair: &mut Pair,
    first: u64,
    count: u8,
    byte: u8,
    out: &mut W,
) -> io::Result<()> {
    match filled(alloc, count, byte) {
        Ok(contents) => step(pair, "submit", Event::Submit { first, contents }, out),
        Err(_) => print::refused(out, "submit", Refusal::NoMemory),
    }
}

/// Returns `count` blocks filled with a byte.
fn filled(alloc: Global, count: u8, byte: u8) -> Result<Bytes, AllocError> {
    let bytes = Vec::from_elem(alloc, byte, usize::from(count) * BLOCK_BYTES)?;
    Ok(Bytes::from_vec(bytes)?)
}

/// Applies the item at a place. A number that no place can have names no item.
fn peer<W: Write>(pair: &mut Pair, place: u64, out: &mut W) -> io::Result<()> {
    match u32::try_from(place) {
        Ok(place) => step(pair, "peer", Event::Peer(place), out),
        Err(_) => print::refused(out, "peer", Refusal::UnknownJob),
    }
}

/// Like `peer`, for an item that fails.
fn peer_fault<W: Write>(pair: &mut Pair, place: u64, kept: u64, out: &mut W) -> io::Result<()> {
    match u32::try_from(place) {
        Ok(place) => step(pair, "peerfail", Event::PeerFault(place, kept), out),
        Err(_) => print::refused(out, "peerfail", Refusal::UnknownJob),
    }
}

/// The result of a hello so far: what the primary decided, and whether a resync ended at once.
#[derive(Drop)]
struct Hello {
    decision: Option<Decision>,
    is_synced: bool,
}

/// Opens both ends and exchanges the hello. Stops at the first refusal.
fn connect<W: Write>(pair: &mut Pair, sync: u64, loss: u64, out: &mut W) -> io::Result<()> {
    match greet(pair, sync, loss) {
        Err(refusal) => print::refused(out, "connect", refusal),
        Ok(hello) => {
            write!(out, "connect ok")?;
            if let Some(decision) = hello.decision {
                write!(out, " {decision}")?;
            }
            if hello.is_synced {
                write!(out, " synced")?;
            }
            writeln!(out)
        }
    }
}

fn greet(pair: &mut Pair, sync: u64, loss: u64) -> Result<Hello, Refusal> {
    let mut hello = Hello {
        decision: None,
        is_synced: false,
    };
    hello.note(&pair.step(&Event::Open { sync, loss }))?;
    for _ in 0..HELLO_FRAMES {
        for event in [Event::Send, Event::Receive, Event::AckOut, Event::AckIn] {
            hello.note(&pair.step(&event))?;
        }
    }
    Ok(hello)
}

impl Hello {
    /// Records the reply to a step of the hello. Returns its refusal if it was refused.
    fn note(&mut self, reply: &Reply) -> Result<(), Refusal> {
        match reply {
            Reply::Refused(refusal) => return Err(*refusal),
            Reply::Closed(_) => {}
            Reply::Ok(done) => {
                if let What::Decided(decision) = done.what {
                    self.decision = Some(decision);
                }
                self.is_synced |= done.synced;
            }
        }
        Ok(())
    }
}
