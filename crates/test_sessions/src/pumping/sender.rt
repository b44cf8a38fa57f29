//! The bytes that a primary sends: its hello, a write and the write's barrier.
ghost use Rattle.endpoint.specs.Calls.{IsNewIn, IsNewOut};
ghost use Rattle.thread_link.specs.Inward.{taking};
ghost use Rattle.thread_link.specs.Outward.{sending};

use crate::nodes::{RowPrimary, RowSecondary, disk, new_primary, new_secondary, submit, turn};
use crate::pumping::receiver::open_secondary;
use std::alloc::Global;
use std::process::Abort;
use std::sync::Wait;
use thread_link::{
    PIECE_BYTES, Piece, PieceIn, PieceOut, RuledIn, RuledOut, Sheet, frame_row, ruled,
};

/// More turns than both nodes need until they are idle.
const TURNS: u32 = 20;

/// Opens a primary, which takes from `inward`. What it sends comes out of the row whose end this returns.
fn open_primary<R: Wait + Copy + Drop + Abort>(
    rt: R,
    alloc: Global,
    primary: &mut RowPrimary<R>,
    inward: RuledIn<R>,
) -> PieceIn<R>
    requires { IsNewIn (taking inward) }
{
    let (outward, sent) = frame_row(rt, alloc, 8).expect(&rt, "a row");
    let opened = primary.open(RuledOut::new(outward), inward, 5, 7);
    opened.expect(&rt, "an open link");
    sent
}

/// The tapped link from a primary to its secondary.
#[derive(Drop)]
struct Tap<R: Wait> {
    sent: PieceIn<R>,
    onward: PieceOut<R>,
    bytes: Vec<u8>,
}

impl<R: Wait> Tap<R> {
    /// Carries on the frames that the primary sent, and keeps their bytes.
    fn carry(&mut self, rt: &impl Abort) {
        for _ in 0..TURNS {
            let Some(sheet) = self.sent.pop() else {
                return;
            };
            self.pass_on(rt, &sheet);
        }
    }

    /// Lays the bytes of a frame into the row as pieces, and keeps them.
    fn pass_on(&mut self, rt: &impl Abort, sheet: &Sheet) {
        let (front, blocks) = sheet.parts();
        for bytes in front.chunks(PIECE_BYTES).chain(blocks.chunks(PIECE_BYTES)) {
            assert!(rt; !bytes.is_empty() && bytes.len() <= PIECE_BYTES);
            self.bytes.extend_from_slice(bytes).expect(rt, "memory");
            assert!(rt; self.onward.push(Piece::new(bytes)).is_ok());
        }
    }
}

/// Has both nodes go on until they are idle.
fn work<R: Wait + Drop>(
    rt: &impl Abort,
    primary: &mut RowPrimary<R>,
    secondary: &mut RowSecondary<R>,
    tap: &mut Tap<R>,
) {
    for _ in 0..TURNS {
        turn(primary, secondary);
        tap.carry(rt);
    }
}

/// Returns the bytes that a primary sends to a new secondary, which sends back over `back`: both exchange their hellos,
/// and then the primary writes.
fn sent_to_secondary<R: Wait + Copy + Drop + Abort>(
    rt: R,
    alloc: Global,
    primary: &mut RowPrimary<R>,
    sent: PieceIn<R>,
    back: RuledOut<R>,
) -> Vec<u8>
    requires { IsNewOut (sending back) }
{
    let mut secondary = new_secondary(&rt, alloc, disk(&rt, alloc), 8);
    let onward = open_secondary(rt, alloc, &mut secondary, back);
    let mut tap = Tap {
        sent,
        onward,
        bytes: Vec::new(alloc),
    };
    work(&rt, primary, &mut secondary, &mut tap);
    submit(&rt, alloc, primary, 2);
    work(&rt, primary, &mut secondary, &mut tap);
    tap.bytes
}

/// Returns the bytes that a primary sends to a secondary over a disk like its own, with one write, under protocol C.
pub(crate) fn sent_bytes<R: Wait + Copy + Drop + Abort>(rt: R, alloc: Global) -> Vec<u8> {
    let (back, at_primary) = ruled(rt, alloc, 4).expect(&rt, "a link");
    let mut primary = new_primary(&rt, alloc, disk(&rt, alloc), false);
    let sent = open_primary(rt, alloc, &mut primary, at_primary);
    sent_to_secondary(rt, alloc, &mut primary, sent, back)
}
