//! A secondary at the end of a row.
ghost use Rattle.endpoint.specs.Calls.{IsNewOut};
ghost use Rattle.thread_link.specs.Outward.{sending};

use crate::nodes::RowSecondary;
use blocks::Refusal;
use std::alloc::Global;
use std::process::Abort;
use std::sync::Wait;
use thread_link::{PieceOut, RuledIn, RuledOut, row};

/// Opens a secondary, which sends over `back`. It takes what is pushed into the row whose end this returns.
pub(crate) fn open_secondary<R: Wait + Copy + Drop + Abort>(
    rt: R,
    alloc: Global,
    secondary: &mut RowSecondary<R>,
    back: RuledOut<R>,
) -> PieceOut<R>
    requires { IsNewOut (sending back) }
{
    let (outward, inward) = row(rt, alloc, 8).expect(&rt, "a row");
    let inward = RuledIn::new(alloc, inward).expect(&rt, "a taking end");
    assert!(rt; secondary.connection_number() < u32::MAX);
    secondary.open(back, inward).expect(&rt, "an open link");
    outward
}

/// Has a secondary take frames until there is none. Returns how many.
pub(crate) fn take_frames<R: Wait + Drop>(secondary: &mut RowSecondary<R>) -> Result<u32, Refusal> {
    for count in 0..u32::MAX {
        match secondary.receive() {
            Ok(_) => (),
            Err(Refusal::NothingThere) => return Ok(count),
            Err(refusal) => return Err(refusal),
        }
    }
    Ok(u32::MAX)
}
