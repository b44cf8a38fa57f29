//! The two ends of one direction of a link between nodes in threads of their own.
ghost use Rattle.std.specs.Prelude.{◌≡◌, ◌<◌, [], IfOk, IfErr};
ghost use Rattle.blocks.specs.declared.refusal.Refusal.TheVariants.{NoMemory};
ghost use Rattle.thread_link.specs.Inward.{unused_in};
ghost use Rattle.thread_link.specs.Joined.{IsJoined};
ghost use Rattle.thread_link.specs.Outward.{unused_out};

use crate::pieces::{frame_row, join_pieces};
use crate::{NoInvariant, RingInvariant, RuledIn, RuledOut};
use blocks::Refusal;
use std::alloc::Global;
use std::sync::Wait;

/// Pieces of the longest frame.
pub const FRAME_PIECES: usize = 31;

/// Creates one direction of a link, over a row for `link` frames; its ends are on a first connection.
/// `NoMemory` (7) if there is no memory for it.
pub fn ruled<R: Wait + Copy>(
    rt: R,
    alloc: Global,
    link: u32,
) -> Result<(RuledOut<R>, RuledIn<R>), Refusal>
    requires { 0 < link }
    ensures outward { IfOk result (λ ends. ends.0 ≡ unused_out ends.0.row) }
    ensures inward { IfOk result (λ ends. ends.1 ≡ unused_in ends.0.row) }
    ensures room { IfOk result (λ ends. ends.0.row.slots ≡ link) }
    ensures refused { IfErr result (λ e. e ≡ NoMemory) }
{
    with_invariant::<R, NoInvariant>(rt, alloc, link)
}

/// Like `ruled`, with the invariant `M` kept over the row.
pub fn with_invariant<R: Wait + Copy, M: RingInvariant>(
    rt: R,
    alloc: Global,
    link: u32,
) -> Result<(RuledOut<R, M>, RuledIn<R, M>), Refusal>
    requires some { 0 < link }
    requires first { M.holds [] [] }
    ensures outward { IfOk result (λ ends. ends.0 ≡ unused_out ends.0.row) }
    ensures inward { IfOk result (λ ends. ends.1 ≡ unused_in ends.0.row) }
    ensures room { IfOk result (λ ends. ends.0.row.slots ≡ link) }
    ensures refused { IfErr result (λ e. e ≡ NoMemory) }
{
    let (outward, inward) = frame_row::<R, M>(rt, alloc, link as usize)?;
    Ok((RuledOut::new(outward), RuledIn::new(alloc, inward)?))
}

/// Returns the two ends of one direction unchanged. The caller, who has both, then knows that on each connection the
/// frames taken begin the frames sent. Takes no memory.
pub fn join_ends<R: Wait, M: RingInvariant>(
    outward: RuledOut<R, M>,
    inward: RuledIn<R, M>,
) -> (RuledOut<R, M>, RuledIn<R, M>)
    requires { outward.row ≡ inward.row }
    ensures ends { (result.0 ≡ outward) × (result.1 ≡ inward) }
    ensures begins { IsJoined outward inward }
{
    let RuledOut {
        pieces: pushed_pieces,
        number: sending,
        sent,
        part,
    } = outward;
    let RuledIn {
        pieces: popped_pieces,
        number: taking,
        taken,
        front,
        rest,
    } = inward;
    let (pushed_pieces, popped_pieces) = join_pieces(pushed_pieces, popped_pieces);
    (
        RuledOut {
            pieces: pushed_pieces,
            number: sending,
            sent,
            part,
        },
        RuledIn {
            pieces: popped_pieces,
            number: taking,
            taken,
            front,
            rest,
        },
    )
}
