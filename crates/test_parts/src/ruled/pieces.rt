//! Tests of frames from pieces that are cut in any way, and of a frame that goes on as pieces.
ghost use Rattle.std.specs.Prelude.{◌≡◌, ◌<◌};

use crate::ruled::connections::three_blocks;
use crate::ruled::ends::{accepts, gives, gives_none};
use crate::ruled::kinds::{frames, write};
use crate::vectors::{BARRIER, OTHER_MAGIC, WRITE_OF_THREE};
use link::FrameIn;
use std::alloc::Global;
use std::process::Abort;
use std::sync::Wait;
use thread_link::{
    NoInvariant, PIECE_BYTES, Piece, PieceIn, PieceOut, RuledIn, RuledOut, frame_row, row,
};

/// Makes a row for this many pieces, and the end of a link that takes them.
fn taker<R: Wait + Abort + Copy>(rt: R, alloc: Global, pieces: usize) -> (PieceOut<R>, RuledIn<R>)
    requires { 0 < pieces }
    ensures { result.1.number ≡ 1 }
{
    let (outward, inward) = row(rt, alloc, pieces).expect(&rt, "there is a row");
    let inward = RuledIn::new(alloc, inward).expect(&rt, "there is a taking end");
    (outward, inward)
}

/// Pushes bytes in pieces of `size`, the last of them shorter.
fn push<R: Wait>(rt: &impl Abort, row: &mut PieceOut<R>, bytes: &[u8], size: usize) {
    for piece in bytes.chunks(size.max(1)) {
        assert!(rt; !piece.is_empty() && piece.len() <= PIECE_BYTES);
        assert!(rt; row.push(Piece::new(piece)).is_ok());
    }
}

/// Checks that all frames come, whatever size the pieces of their bytes have.
fn come_in_pieces<R: Wait, I: FrameIn>(
    rt: &impl Abort,
    alloc: Global,
    outward: &mut PieceOut<R>,
    inward: &mut I,
) {
    let frames = frames(rt, alloc);
    let bytes = frames.concat(alloc).expect(rt, "there is memory");
    assert_eq!(rt; bytes.len(), 8452);
    for size in 1..=PIECE_BYTES {
        push(rt, outward, &bytes, size);
        for frame in &frames {
            gives(rt, inward, frame);
        }
        gives_none(rt, inward);
    }
}

#[test]
fn frames_come_in_pieces_of_any_size(rt: HostRuntime) {
    let (mut outward, mut inward) = taker(&rt, rt.alloc(), 8452);
    come_in_pieces(&rt, rt.alloc(), &mut outward, &mut inward);
}

/// Checks that a header of another protocol is given as it is, and that what follows it is read on.
fn check_given_alone<R: Wait, I: FrameIn>(
    rt: &impl Abort,
    outward: &mut PieceOut<R>,
    inward: &mut I,
) {
    push(rt, outward, &OTHER_MAGIC, 3);
    push(rt, outward, &BARRIER[..15], 16);
    gives(rt, inward, &OTHER_MAGIC);
    gives_none(rt, inward);
    push(rt, outward, &BARRIER[15..], 1);
    gives(rt, inward, &BARRIER);
}

#[test]
fn a_header_that_is_none_is_a_frame_of_eight_bytes(rt: HostRuntime) {
    let (mut outward, mut inward) = taker(&rt, rt.alloc(), 16);
    check_given_alone(&rt, &mut outward, &mut inward);
}

/// Pushes part of a frame, and checks that the next connection gets none of its bytes.
fn drops_a_part<R: Wait, I: FrameIn>(rt: &impl Abort, outward: &mut PieceOut<R>, inward: &mut I)
    requires { (I.state inward.old).number ≡ 1 }
{
    push(rt, outward, &BARRIER[..15], 8);
    gives_none(rt, inward);
    inward.restart(2);
    push(rt, outward, &BARRIER[15..], 1);
    push(rt, outward, &BARRIER, 16);
    gives_none(rt, inward);
}

#[test]
fn a_connection_ends_within_a_frame(rt: HostRuntime) {
    let (mut outward, mut inward) = taker(&rt, rt.alloc(), 4);
    drops_a_part(&rt, &mut outward, &mut inward);
}

/// Returns the end that pops the frame of a write.
fn sent_write<R: Wait + Abort + Copy>(rt: R, alloc: Global) -> PieceIn<R> {
    let (outward, inward) = frame_row::<R, NoInvariant>(rt, alloc, 1).expect(&rt, "there is a row");
    accepts(&rt, &mut RuledOut::new(outward), three_blocks(&rt, alloc));
    inward
}

/// Passes the bytes of a write on in pieces, from its first 32 bytes and then from its blocks.
fn passes_on<R: Wait>(rt: &impl Abort, sent: &mut PieceIn<R>, onward: &mut PieceOut<R>) {
    let sheet = sent.pop().expect(rt, "there is a frame");
    let (front, blocks) = sheet.parts();
    assert!(rt; front == WRITE_OF_THREE.as_slice());
    push(rt, onward, front, PIECE_BYTES);
    push(rt, onward, blocks, PIECE_BYTES);
    sent.give_back(sheet);
    assert!(rt; sent.pop().is_none());
}

/// Checks that a write comes when its last byte has come.
fn comes_with_the_last<R: Wait, I: FrameIn>(
    rt: &impl Abort,
    outward: &mut PieceOut<R>,
    inward: &mut I,
    write: &[u8],
) {
    let (most, last) = write.split_at(write.len().saturating_sub(1));
    for bytes in most.chunks(PIECE_BYTES) {
        push(rt, outward, bytes, PIECE_BYTES);
        gives_none(rt, inward);
    }
    push(rt, outward, last, 1);
    gives(rt, inward, write);
}

#[test]
fn a_write_goes_on_in_pieces(rt: HostRuntime) {
    let mut sent = sent_write(&rt, rt.alloc());
    let (mut outward, mut inward) = taker(&rt, rt.alloc(), 4);
    passes_on(&rt, &mut sent, &mut outward);
    gives(&rt, &mut inward, &write(&rt, rt.alloc()));
    comes_with_the_last(&rt, &mut outward, &mut inward, &write(&rt, rt.alloc()));
}
