//! Streams that are fed to a node through a pump.
use crate::nodes::{
    RowEnds, RowPrimary, RowSecondary, open_primary, open_secondary, submit, work_primary,
    work_secondary,
};
use blocks::{Done, Refusal};
use pumps::{Buffer, PumpEnd, pump_in};
use session_api::Bell;
use std::alloc::Global;
use std::sync::Wait;
use std::sync::atomic::AtomicBool;
use std::time::Clock;
use thread_link::PieceOut;

/// The outcome of a stream.
#[derive(Clone, Copy, Debug, PartialEq, Eq)]
pub(crate) struct Fed {
    /// How many frames were taken, the refused one included.
    pub(crate) frames: u64,
    /// Whether the pump came to its end, each reply was one that a frame may have, and the end that refused a frame is
    /// closed.
    pub(crate) is_sound: bool,
}

impl Fed {
    // Records the outcome of a call. Returns whether there may be another frame.
    fn note(&mut self, came: Came, is_closed: bool) -> bool {
        self.is_sound &= came != Came::Strange && is_closed;
        if came == Came::Taken || came == Came::Refused {
            self.frames = self.frames.saturating_add(1);
        }
        came == Came::Taken
    }

    /// Adds the outcomes of two streams.
    pub(crate) fn and(self, other: Fed) -> Fed {
        Fed {
            frames: self.frames.saturating_add(other.frames),
            is_sound: self.is_sound && other.is_sound,
        }
    }
}

/// The outcome of a call that takes a frame.
#[derive(Clone, Copy, Debug, PartialEq, Eq)]
enum Came {
    /// A frame was taken.
    Taken,
    /// A frame was refused, and its end must be closed from then on.
    Refused,
    /// There is no frame now; the node may have to do something first.
    NotNow,
    /// No frame may have this reply.
    Strange,
}

// Judges a call by its reply.
fn judged(reply: Result<Done, Refusal>) -> Came {
    let Err(refusal) = reply else {
        return Came::Taken;
    };
    match refusal {
        Refusal::NoMemory | Refusal::NotConnected | Refusal::NothingThere | Refusal::PendingFull =>
            Came::NotNow,
        Refusal::BadMagic
        | Refusal::BadCommand
        | Refusal::BadLength
        | Refusal::BadField
        | Refusal::BadBarrierAck
        | Refusal::UnknownAck
        | Refusal::PrimaryStale
        | Refusal::SplitBrain
        | Refusal::Unrelated
        | Refusal::UsedIdentifier
        | Refusal::OtherProtocol
        | Refusal::OtherSize => Came::Refused,
        _ => Came::Strange,
    }
}

/// Feeds a secondary with a stream.
pub(crate) fn feed_secondary<R: Wait + Clock + Copy + Drop>(
    rt: R,
    alloc: Global,
    stream: &Vec<u8>,
) -> Result<Fed, Refusal> {
    match open_secondary(rt, alloc) {
        Ok((mut secondary, mut rows)) => feed_open_secondary(
            rt,
            alloc,
            &mut secondary,
            &mut rows,
            stream,
        ),
        Err(refusal) => Err(refusal),
    }
}

fn feed_open_secondary<R: Wait + Clock + Drop>(
    rt: R,
    alloc: Global,
    secondary: &mut RowSecondary<R>,
    rows: &mut RowEnds<R>,
    stream: &Vec<u8>,
) -> Result<Fed, Refusal> {
    let is_whole = pump(rt, alloc, rows, stream)?;
    Ok(take_all(secondary, rows, stream.len(), is_whole))
}

// Has a secondary take frames while there are any: each has a byte at least.
fn take_all<R: Wait + Drop>(
    secondary: &mut RowSecondary<R>,
    rows: &mut RowEnds<R>,
    bytes: usize,
    is_whole: bool,
) -> Fed {
    let mut fed = Fed {
        frames: 0,
        is_sound: is_whole,
    };
    for _ in 0..bytes {
        work_secondary(secondary);
        drop_sent(rows);
        let came = judged(secondary.receive());
        if came == Came::NotNow && !secondary.node().is_drained() {
            continue;
        }
        let is_closed = came != Came::Refused || secondary.receive() == Err(Refusal::NotConnected);
        if !fed.note(came, is_closed) {
            break;
        }
    }
    fed
}

/// Feeds a primary with a stream, while it writes.
pub(crate) fn feed_primary<R: Wait + Clock + Copy + Drop>(
    rt: R,
    alloc: Global,
    stream: &Vec<u8>,
) -> Result<Fed, Refusal> {
    match open_primary(rt, alloc) {
        Ok((mut primary, mut rows)) => feed_open_primary(
            rt,
            alloc,
            &mut primary,
            &mut rows,
            stream,
        ),
        Err(refusal) => Err(refusal),
    }
}

fn feed_open_primary<R: Wait + Clock + Drop>(
    rt: R,
    alloc: Global,
    primary: &mut RowPrimary<R>,
    rows: &mut RowEnds<R>,
    stream: &Vec<u8>,
) -> Result<Fed, Refusal> {
    let is_whole = pump(rt, alloc, rows, stream)?;
    take_acks(alloc, primary, rows, stream.len(), is_whole)
}

// Has a primary write, and take frames while there are any.
fn take_acks<R: Wait + Drop>(
    alloc: Global,
    primary: &mut RowPrimary<R>,
    rows: &mut RowEnds<R>,
    bytes: usize,
    is_whole: bool,
) -> Result<Fed, Refusal> {
    let mut fed = Fed {
        frames: 0,
        is_sound: is_whole,
    };
    let mut write = 0u64;
    for _ in 0..bytes {
        // A frame is acknowledged only after it was sent.
        for _ in 0..4 {
            write = submit(alloc, primary, write)?;
            work_primary(primary);
        }
        drop_sent(rows);
        let came = judged(primary.ack_in());
        let is_closed = came != Came::Refused || primary.ack_in() == Err(Refusal::NotConnected);
        if !fed.note(came, is_closed) {
            break;
        }
    }
    Ok(fed)
}

// Drops what a node sent.
fn drop_sent<R: Wait + Drop>(rows: &mut RowEnds<R>) {
    for _ in 0..u32::MAX {
        if rows.sent.pop().is_none() {
            break;
        }
    }
}

// Pumps a stream into a node's row. Returns whether the pump came to the stream's end.
fn pump<R: Wait + Clock + Drop>(
    rt: R,
    alloc: Global,
    rows: &mut RowEnds<R>,
    stream: &Vec<u8>,
) -> Result<bool, Refusal> {
    match Buffer::new(alloc) {
        Ok(mut buffer) => Ok(pump_through(rt, &mut rows.to_take, stream, &mut buffer)),
        Err(refusal) => Err(refusal),
    }
}

fn pump_through<R: Wait + Clock + Drop>(
    rt: R,
    to_take: &mut PieceOut<R>,
    stream: &Vec<u8>,
    buffer: &mut Buffer,
) -> bool {
    let mut reader = stream.as_slice();
    let stop = AtomicBool::new(false);
    let end = pump_in(&rt, to_take, &mut reader, buffer, &stop, &Bell::new());
    end == PumpEnd::EndOfInput
}
