//! How a primary is opened that is to be measured: it has a first connection and loses it, so that its writes wait for nobody.
ghost use Rattle.std.specs.Prelude.{◌<◌, ◌≤◌};
ghost use Rattle.endpoint.specs.Calls.{IsNewIn, IsNewOut};

use crate::measured::{FirstPeer, MeasuredPrimary};
use bitmap::Bitmap;
use blocks::{ConnectionWords, MemStore, Protocol, Refusal, Settings, Tuple};
use kept_nodes::{KeptPrimary, KeptSecondary, NoFile};
use link::{FrameIn, FrameOut};
use metadata::{Metadata, StableFile};
use session_nodes::Unknown;
use std::alloc::Global;
use std::sync::Wait;
use thread_link::{RuledIn, RuledOut, ruled};

/// A primary over a link between threads and a disk in memory.
pub(crate) type Primary<O, I, F> = KeptPrimary<Unknown, O, I, MemStore, F>;

type Secondary<O, I> = KeptSecondary<Unknown, O, I, MemStore, NoFile>;

/// Frames that a link holds at most.
const LINK: u32 = 64;

/// The rounds of a hello at most: each node sends three frames and takes three.
const HELLO_ROUNDS: u32 = 16;

/// The identifiers of both disks, which are alike.
const ALIKE: Tuple = Tuple {
    current: 1,
    bitmap: 0,
    first_historical: 0,
    second_historical: 0,
};

/// Opens a primary over a disk of zeros of 1 to 262,144 blocks, with this metadata, if there is some. It has had a first connection, and
/// its end is closed.
pub(crate) fn opened<R: Wait + Copy + Drop, F: StableFile>(
    rt: R,
    alloc: Global,
    blocks: u32,
    metadata: Option<Metadata<F>>,
) -> Result<Primary<RuledOut<R>, RuledIn<R>, F>, Refusal>
    requires some { 0 < blocks }
    requires few { blocks ≤ 262144 }
{
    let there = ruled(rt, alloc, LINK)?;
    let back = ruled(rt, alloc, LINK)?;
    let primary = open_primary(alloc, blocks, (there.0, back.1), metadata);
    let secondary = open_secondary(alloc, blocks, (back.0, there.1));
    met(primary, secondary)
}

// Opens the primary.
fn open_primary<O: FrameOut + Drop, I: FrameIn + Drop, F: StableFile>(
    alloc: Global,
    blocks: u32,
    link: (O, I),
    metadata: Option<Metadata<F>>,
) -> Result<Primary<O, I, F>, Refusal>
    requires some { 0 < blocks }
    requires few { blocks ≤ 262144 }
    requires outward { IsNewOut (O.state link.0) }
    requires inward { IsNewIn (I.state link.1) }
{
    match MemStore::zeroed(alloc, blocks) {
        Ok(store) => match Bitmap::unmarked(alloc, u64::from(blocks)) {
            Ok(marks) => KeptPrimary::open(
                alloc,
                settings(blocks),
                store,
                ALIKE,
                marks,
                link,
                ConnectionWords { sync: 2, loss: 3 },
                metadata,
            ),
            Err(_) => Err(Refusal::NoMemory),
        },
        Err(_) => Err(Refusal::NoMemory),
    }
}

// Opens the secondary, which has no metadata.
fn open_secondary<O: FrameOut + Drop, I: FrameIn + Drop>(
    alloc: Global,
    blocks: u32,
    link: (O, I),
) -> Result<Secondary<O, I>, Refusal>
    requires some { 0 < blocks }
    requires few { blocks ≤ 262144 }
    requires outward { IsNewOut (O.state link.0) }
    requires inward { IsNewIn (I.state link.1) }
{
    match MemStore::zeroed(alloc, blocks) {
        Ok(store) => KeptSecondary::open(alloc, settings(blocks), store, ALIKE, link, None, false),
        Err(_) => Err(Refusal::NoMemory),
    }
}

// Returns the settings of a device.
fn settings(blocks: u32) -> Settings {
    Settings {
        protocol: Protocol::A,
        blocks,
        ..Settings::STANDARD
    }
}

// Has both nodes exchange their hellos, and the primary close its end. Returns the primary, if both could be opened.
fn met<P: MeasuredPrimary + Drop, S: FirstPeer + Drop>(
    primary: Result<P, Refusal>,
    secondary: Result<S, Refusal>,
) -> Result<P, Refusal> {
    match secondary {
        Ok(mut secondary) => {
            let greeted = greeted(primary, &mut secondary);
            secondary.end();
            greeted
        }
        Err(refusal) => Err(refusal),
    }
}

// Has a primary that could be opened exchange hellos with the secondary, and close its end.
fn greeted<P: MeasuredPrimary + Drop, S: FirstPeer>(
    primary: Result<P, Refusal>,
    secondary: &mut S,
) -> Result<P, Refusal> {
    match primary {
        Ok(mut primary) => {
            for _ in 0..HELLO_ROUNDS {
                primary.exchange();
                secondary.exchange();
            }
            primary.close();
            Ok(primary)
        }
        Err(refusal) => Err(refusal),
    }
}
