//! How another program uses the crates: two nodes over a link, one of them with a disk of the program's own, ten
//! writes, a lost link, and the resync. It prints how each write was completed.
#![tactic(auto)]

mod disk;

ghost use Rattle.std.specs.Prelude.{◌≤◌, ◌+◌};

use bitmap::Bitmap;
use blocks::{ConnectionWords, MemStore, Refusal, Settings, Tuple};
use bytes::Bytes;
use disk::LooseDisk;
use mirror::{connect, work};
use primary::{CompletionKind, Primary};
use secondary::Secondary;
use std::alloc::Global;
use std::io::Print;
use std::sync::Wait;
use thread_link::{RuledIn, RuledLink, RuledOut};

/// Protocol C over eight blocks: a write is completed once both disks have it.
const SETTINGS: Settings = Settings::STANDARD;

/// How many frames a direction of the link holds.
const FRAMES: u32 = 4;

/// How many turns both nodes may take at most until they rest.
const TURNS: u32 = 1_000;

/// The words of both connections.
const FIRST: ConnectionWords = ConnectionWords { sync: 2, loss: 3 };

const SECOND: ConnectionWords = ConnectionWords { sync: 4, loss: 5 };

type RowPrimary<R> = Primary<RuledOut<R>, RuledIn<R>, MemStore>;

type RowSecondary<R> = Secondary<RuledOut<R>, RuledIn<R>, LooseDisk>;

fn main(rt: HostRuntime) -> anyhow::Result<()> {
    mirrored(&rt, &rt, rt.alloc())
}

/// Makes ten writes: the peer gets four before the link is lost, and the others by a resync.
fn mirrored<R: Wait + Copy + Drop>(out: &impl Print, rt: R, alloc: Global) -> anyhow::Result<()> {
    // Two disks that begin alike have the same generation identifiers.
    let alike = Tuple::new(1, 0, 0, 0);
    let zeros = MemStore::zeroed(alloc, SETTINGS.blocks)?;
    let marks = Bitmap::unmarked(alloc, u64::from(SETTINGS.blocks))?;
    let mut primary = RowPrimary::<R>::with_bitmap(alloc, SETTINGS, zeros, alike, marks)?;
    let disk = LooseDisk {
        disk: MemStore::zeroed(alloc, SETTINGS.blocks)?,
        passes: Some(4),
    };
    let mut secondary = RowSecondary::<R>::new(alloc, SETTINGS, disk, alike)?;

    // The peer's disk fails the fifth write, which closes the peer's end of the link.
    link_up(rt, alloc, &mut primary, &mut secondary, FIRST)?;
    fill(alloc, &mut primary, 0, 6)?;
    work(&mut primary, &mut secondary, TURNS)?;
    println!(out; "peer open: {}", secondary.is_open())?;

    // The primary's end closes too, which completes what waited for the peer; the primary goes on alone.
    println!(out; "completed by the close: {}", primary.close()?)?;
    fill(alloc, &mut primary, 4, 4)?;
    work(&mut primary, &mut secondary, TURNS)?;
    println!(out; "marked: {}", primary.marks())?;

    // A new link, and fresh words: the marked blocks are copied.
    link_up(rt, alloc, &mut primary, &mut secondary, SECOND)?;
    let (marks, own, other) = (primary.marks(), primary.tuple(), secondary.tuple());
    println!(out; "marked: {marks}, {own} and {other}")?;
    confirmed(out, &mut primary)
}

/// Opens both nodes over a new link, which exchange their hellos and copy the marked blocks. Returns whether they rest.
fn link_up<R: Wait + Copy + Drop>(
    rt: R,
    alloc: Global,
    primary: &mut RowPrimary<R>,
    secondary: &mut RowSecondary<R>,
    words: ConnectionWords,
) -> Result<bool, Refusal> {
    let link = RuledLink::new(rt, alloc, FRAMES)?;
    connect(primary, secondary, link.there, link.back, words)?;
    work(primary, secondary, TURNS)
}

/// Submits `count` writes of one block each, from block `first` on.
fn fill<R: Wait + Drop>(
    alloc: Global,
    primary: &mut RowPrimary<R>,
    first: u64,
    count: u64,
) -> Result<(), Refusal>
    requires { first + count ≤ 8 }
{
    for block in first..first + count {
        primary.submit(block, &Bytes::copy_from_slice(alloc, &[0xAA; 4096])?)?;
    }
    Ok(())
}

/// Prints how each write was completed.
fn confirmed<R: Wait + Drop>(out: &impl Print, primary: &mut RowPrimary<R>) -> anyhow::Result<()> {
    for number in 1..=primary.accepted() {
        let Ok(receipt) = primary.take_completed(number) else {
            println!(out; "write {number} is not completed")?;
            continue;
        };
        let disks = match receipt.kind() {
            CompletionKind::Linked => "both disks",
            CompletionKind::Alone => "the primary's disk",
        };
        println!(out; "write {number} of block {}: {disks}", receipt.first().0)?;
    }
    Ok(())
}
