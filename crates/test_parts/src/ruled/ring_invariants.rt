//! Tests of a row and of a link with an invariant.
ghost use Rattle.std.specs.Prelude.{[]};

use crate::ruled::connections::three_blocks;
use crate::ruled::ends::carries;
use crate::ruled::kinds::write;
use std::alloc::Global;
use std::marker::Brand;
use std::process::Abort;
use std::sync::Wait;
use thread_link::{Piece, PieceIn, PieceOut, RingInvariant, row_with_invariant, with_invariant};

/// Checks that the first piece of the row has these bytes.
fn pops<R: Wait, M: RingInvariant>(abort: &impl Abort, row: &mut PieceIn<R, M>, bytes: &[u8]) {
    let sheet = row.pop().expect(abort, "there is a piece");
    let piece = (bytes, [].as_slice());
    assert!(abort; sheet.parts() == piece);
    row.give_back(sheet);
}

/// Checks that a row that has one piece hands a second one back.
fn hands_back<R: Wait, M: RingInvariant>(abort: &impl Abort, row: &mut PieceOut<R, M>) -> Piece {
    let second = row.push(Piece::new(b"second"));
    let second = second.expect_err(abort, "a row for one piece");
    assert_eq!(abort; second.bytes(), b"second".as_slice());
    second
}

/// Checks that a row for one piece is empty and then full.
fn holds_one_piece<R: Wait, M: RingInvariant>(
    abort: &impl Abort,
    outward: &mut PieceOut<R, M>,
    inward: &mut PieceIn<R, M>,
) {
    assert!(abort; inward.pop().is_none());
    assert!(abort; outward.push(Piece::new(b"first")).is_ok());
    let second = hands_back(abort, outward);
    pops(abort, inward, b"first");
    assert!(abort; inward.pop().is_none());
    assert!(abort; outward.push(second).is_ok());
}

/// Checks the same of a row with the invariant `M`.
fn check_empty_and_then_full<M: RingInvariant, R: Wait + Abort + Copy>(rt: R, alloc: Global)
    requires { M.holds [] [] }
{
    let (mut outward, mut inward) = row_with_invariant::<R, M>(rt, alloc, 1).expect(
        &rt,
        "there is a row",
    );
    holds_one_piece(&rt, &mut outward, &mut inward);
}

#[test]
fn a_row_with_an_invariant_is_empty_and_then_full(rt: HostRuntime) {
    check_empty_and_then_full::<Brand, &HostRuntime>(&rt, rt.alloc());
}

/// Checks that a frame goes through a link with the invariant `M`, which then has none.
fn one_frame_goes_through<M: RingInvariant, R: Wait + Abort + Copy>(rt: R, alloc: Global)
    requires { M.holds [] [] }
{
    let (mut outward, mut inward) = with_invariant::<R, M>(rt, alloc, 1).expect(
        &rt,
        "there is a link",
    );
    let (frame, bytes) = (three_blocks(&rt, alloc), write(&rt, alloc));
    carries(&rt, &mut outward, &mut inward, frame, &bytes);
}

#[test]
fn a_link_with_an_invariant_gives_all_and_then_none(rt: HostRuntime) {
    one_frame_goes_through::<Brand, &HostRuntime>(&rt, rt.alloc());
}
