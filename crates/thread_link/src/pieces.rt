//! The row of pieces of one direction, and its two ends.
ghost use Rattle.std.specs.Prelude.{◌≡◌, ◌<◌, ◌≤◌, List, [], ◌∷◌, ◌++◌, length, OnOk, OnErr, IfNone, IfOk, IfErr, MatchOption};
ghost use Rattle.std.specs.Bool.{OnTrue, OnFalse};
ghost use Rattle.thread_link.specs.Moments.{WasEmpty, WasFull};
ghost use Rattle.thread_link.specs.Pieces.{PieceState};
ghost use Rattle.packets.specs.declared.cutting.TheConstants.{MAX_FRAME_BYTES};
ghost use Rattle.thread_link.specs.declared.piece.TheConstants.{PIECE_BYTES};
ghost use Rattle.thread_link.specs.Inward.{IsDropped};
ghost use Rattle.thread_link.specs.Row.{piece_of};

use crate::numbered::Numbered;
use crate::sheet::Sheet;
use crate::stock::{Returns, Stock};
use crate::{NoInvariant, Piece, RingInvariant};
use crossbeam_queue::protocol::{Join, Lesson, Outcome, Protocol, Split};
use crossbeam_queue::{Pass, RuledArrayQueue};
use packets::Frame;
use std::alloc::{AllocError, Global};
use std::collections::LinkedList;
use std::marker::{Model, PhantomData};
use std::sync::{Arc, Wait};

/// What a pass may do, and what it has pushed and taken. No value of it is made.
pub struct Log {
    pub pushes: bool,
    pub takes: bool,
    pub pushed: LinkedList<Piece>,
    pub taken: LinkedList<Piece>,
}

/// The protocol of a row that keeps the invariant `M`.
struct InOrder<M: RingInvariant> {
    of: PhantomData<M>,
}

impl<M: RingInvariant> Protocol<Sheet, Log> for InOrder<M> {
    ghost use Rattle.std.specs.Prelude.{true, []};
    ghost use Rattle.thread_link.specs.Row.{log};
    ghost use Rattle.thread_link.specs.Row as row;

    ghost holds = { row.SheetsInOrder M.holds };

    ghost first = { log true true [] [] };
}

struct Ends;

impl Split<Log> for Ends {
    ghost use Rattle.std.specs.Prelude.{true, false, []};
    ghost use Rattle.thread_link.specs.Row.{log};

    ghost left = { λ v. log true false v.pushed [] };

    ghost right = { λ v. log false true [] v.taken };
}

impl Join<Log> for Ends {
    ghost use Rattle.std.specs.Prelude.{true, false, []};
    ghost use Rattle.thread_link.specs.Row.{log};

    ghost both = { λ v w. log true true v.pushed w.taken };

    ghost spent = { log false false [] [] };
}

/// What a pass that may both push and take learns.
struct Whole;

impl Lesson<Sheet, Log> for Whole {
    ghost use Rattle.std.specs.Prelude.{◌≡◌, ◌++◌, map};
    ghost use Rattle.thread_link.specs.Row.{piece_of};

    ghost fact = { λ v sheets. v.pushed ≡ v.taken ++ map piece_of sheets };
}

struct Pushed<M: RingInvariant> {
    of: PhantomData<M>,
}

impl<M: RingInvariant> Outcome<Sheet, Log> for Pushed<M> {
    ghost use Rattle.std.specs.Prelude.{◌≡◌, [], ◌∷◌, ◌++◌};
    ghost use Rattle.thread_link.specs.Row.{log, piece_of};

    ghost then = { λ v x w. w ≡ log v.pushes v.takes (v.pushed ++ piece_of x ∷ []) v.taken };
}

impl<M: RingInvariant> Lesson<Sheet, Log> for Pushed<M> {
    ghost use Rattle.std.specs.Prelude.{map};
    ghost use Rattle.thread_link.specs.Row.{PushedAt, piece_of};

    ghost fact = { λ v sheets. PushedAt M.holds v.pushed (map piece_of sheets) };
}

struct Taken<M: RingInvariant> {
    of: PhantomData<M>,
}

impl<M: RingInvariant> Outcome<Sheet, Log> for Taken<M> {
    ghost use Rattle.std.specs.Prelude.{◌≡◌, [], ◌∷◌, ◌++◌};
    ghost use Rattle.thread_link.specs.Row.{log, piece_of};

    ghost then = { λ v x w. w ≡ log v.pushes v.takes v.pushed (v.taken ++ piece_of x ∷ []) };
}

impl<M: RingInvariant> Lesson<Sheet, Log> for Taken<M> {
    ghost use Rattle.std.specs.Prelude.{◌++◌, map};
    ghost use Rattle.thread_link.specs.Row.{piece_of};

    ghost fact = { λ v sheets. M.holds (v.taken ++ map piece_of sheets) v.taken };
}

type Row<M> = RuledArrayQueue<Sheet, Log, InOrder<M>>;

/// The pushing end of a row, for whole frames.
#[derive(Drop)]
pub struct RowOut<R: Wait, M: RingInvariant = NoInvariant> {
    rt: R,
    row: Arc<Row<M>, Global>,
    pass: Pass<Sheet, Log>,
}

impl<R: Wait, M: RingInvariant> Model for RowOut<R, M> {
    ghost use Rattle.std.specs.Prelude.{◌≡◌, true, false, []};
    ghost use Rattle.crossbeam_queue.specs.Passes as passes;
    ghost use Rattle.thread_link.specs.Pieces.{EndState};

    ghost Value = { EndState };

    ghost use Rattle.thread_link.specs.Row.{log};

    ghost view = { λ e. record { row = e.pass.table_id; pieces = (passes.view e.pass).pushed } };

    ghost invariant = { λ e. passes.IsPassOf e.row.value e.pass × (passes.view e.pass ≡ log true false (passes.view e.pass).pushed []) };
}

/// The pushing end of a row, for pieces of bytes. It has pages to write them on.
#[derive(Drop)]
pub struct PieceOut<R: Wait, M: RingInvariant = NoInvariant> {
    end: RowOut<R, M>,
    stock: Stock,
}

impl<R: Wait, M: RingInvariant> Model for PieceOut<R, M> {
    ghost use Rattle.thread_link.specs.Pieces.{EndState};

    ghost Value = { EndState };

    ghost view = { λ e. e.end };
}

/// The taking end of a row.
#[derive(Drop)]
pub struct PieceIn<R: Wait, M: RingInvariant = NoInvariant> {
    rt: R,
    row: Arc<Row<M>, Global>,
    pass: Pass<Sheet, Log>,
    returns: Returns,
}

impl<R: Wait, M: RingInvariant> Model for PieceIn<R, M> {
    ghost use Rattle.std.specs.Prelude.{◌≡◌, true, false, []};
    ghost use Rattle.crossbeam_queue.specs.Passes as passes;
    ghost use Rattle.thread_link.specs.Pieces.{EndState};

    ghost Value = { EndState };

    ghost use Rattle.thread_link.specs.Row.{log};

    ghost view = { λ e. record { row = e.pass.table_id; pieces = (passes.view e.pass).taken } };

    ghost invariant = { λ e. passes.IsPassOf e.row.value e.pass × (passes.view e.pass ≡ log false true [] (passes.view e.pass).taken) };
}

/// Creates a row for `capacity` pieces, and returns its two ends.
pub fn row<R: Wait + Copy>(
    rt: R,
    alloc: Global,
    capacity: usize,
) -> Result<(PieceOut<R>, PieceIn<R>), AllocError>
    requires { 0 < capacity }
    ensures ends { IfOk result (λ ends. (ends.0.pieces ≡ []) × (ends.1.pieces ≡ []) × (ends.0.row ≡ ends.1.row)) }
    ensures room { IfOk result (λ ends. ends.0.row.slots ≡ capacity) }
{
    row_with_invariant::<R, NoInvariant>(rt, alloc, capacity)
}

/// Like `row`, with the invariant `M` kept.
pub fn row_with_invariant<R: Wait + Copy, M: RingInvariant>(
    rt: R,
    alloc: Global,
    capacity: usize,
) -> Result<(PieceOut<R, M>, PieceIn<R, M>), AllocError>
    requires some { 0 < capacity }
    requires first { M.holds [] [] }
    ensures ends { IfOk result (λ ends. (ends.0.pieces ≡ []) × (ends.1.pieces ≡ []) × (ends.0.row ≡ ends.1.row)) }
    ensures room { IfOk result (λ ends. ends.0.row.slots ≡ capacity) }
{
    let (stock, returns) = Stock::new(alloc, capacity)?;
    let (end, inward) = ends_of(rt, alloc, capacity, returns)?;
    Ok((PieceOut { end, stock }, inward))
}

/// Creates a row for `capacity` whole frames, and returns its two ends. The invariant `M` is kept.
pub fn frame_row<R: Wait + Copy, M: RingInvariant>(
    rt: R,
    alloc: Global,
    capacity: usize,
) -> Result<(RowOut<R, M>, PieceIn<R, M>), AllocError>
    requires some { 0 < capacity }
    requires first { M.holds [] [] }
    ensures ends { IfOk result (λ ends. (ends.0.pieces ≡ []) × (ends.1.pieces ≡ []) × (ends.0.row ≡ ends.1.row)) }
    ensures room { IfOk result (λ ends. ends.0.row.slots ≡ capacity) }
{
    ends_of(rt, alloc, capacity, Returns::none(alloc)?)
}

/// Creates a row for `capacity` pieces or frames, whose pages come back by `returns`, and returns its two ends.
fn ends_of<R: Wait + Copy, M: RingInvariant>(
    rt: R,
    alloc: Global,
    capacity: usize,
    returns: Returns,
) -> Result<(RowOut<R, M>, PieceIn<R, M>), AllocError>
    requires some { 0 < capacity }
    requires first { M.holds [] [] }
    ensures ends { IfOk result (λ ends. (ends.0.pieces ≡ []) × (ends.1.pieces ≡ []) × (ends.0.row ≡ ends.1.row)) }
    ensures room { IfOk result (λ ends. ends.0.row.slots ≡ capacity) }
{
    let (queue, mut pass) = Row::<M>::ruled(alloc, capacity)?;
    let taker = queue.another::<Ends>(&mut pass);
    let row = Arc::new(alloc, queue)?;
    let other = Arc::try_clone(&row)?;
    Ok((
        RowOut { rt, row, pass },
        PieceIn {
            rt,
            row: other,
            pass: taker,
            returns,
        },
    ))
}

impl<R: Wait, M: RingInvariant> RowOut<R, M> {
    /// Pushes a whole frame of connection `number` at the end of the row, or hands it back if the row was full at some moment of
    /// the call. Takes no memory, and copies no byte.
    #[inline]
    pub(crate) fn push_frame(&mut self, number: u32, frame: Frame) -> Result<(), Frame>
        requires some { 0 < length frame }
        requires few { length frame ≤ MAX_FRAME_BYTES }
        ensures pushed { OnOk result (self.new ≡ record self.old {
          pieces = self.old.pieces ++ record { number = number; bytes = frame } ∷ [];
        }) }
        ensures handed_back { IfErr result (λ back. back ≡ frame) }
        ensures unchanged { OnErr result (self.new ≡ self.old) }
        ensures full { OnErr result (WasFull M.holds self.old.row self.old.pieces) }
    {
        match self.push_sheet(Sheet::Whole(Numbered::new(number, frame))) {
            Ok(()) => Ok(()),
            Err(Sheet::Whole(numbered)) => Err(numbered.into_frame()),
            Err(Sheet::Written(_)) => unreachable!(),
        }
    }

    /// Pushes a sheet at the end of the row, or hands it back if the row was full at some moment of the call.
    #[inline]
    fn push_sheet(&mut self, sheet: Sheet) -> Result<(), Sheet>
        ensures pushed { OnOk result (self.new ≡ record self.old { pieces = self.old.pieces ++ piece_of sheet ∷ [] }) }
        ensures handed_back { IfErr result (λ back. back ≡ sheet) }
        ensures unchanged { OnErr result (self.new ≡ self.old) }
        ensures full { OnErr result (WasFull M.holds self.old.row self.old.pieces) }
    {
        self.row
            .push_as::<Pushed<M>, R>(&self.rt, &mut self.pass, sheet)
    }
}

impl<R: Wait, M: RingInvariant> PieceOut<R, M> {
    /// Pushes a piece at the end of the row, or hands it back if the row was full at some moment of the call. Takes no
    /// memory.
    #[inline]
    pub fn push(&mut self, piece: Piece) -> Result<(), Piece>
        ensures pushed { OnOk result (self.new ≡ record self.old { pieces = self.old.pieces ++ piece ∷ [] }) }
        ensures handed_back { IfErr result (λ back. back ≡ piece) }
        ensures unchanged { OnErr result (self.new ≡ self.old) }
        ensures full { OnErr result (WasFull M.holds self.old.row self.old.pieces) }
    {
        match self.push_bytes(piece.number(), piece.bytes()) {
            true => Ok(()),
            false => Err(piece),
        }
    }

    /// Pushes a piece of connection `number` at the end of the row, and returns whether there was room. Takes no
    /// memory.
    #[inline]
    pub(crate) fn push_bytes(&mut self, number: u32, bytes: &[u8]) -> bool
        requires some { 0 < length bytes.now }
        requires few { length bytes.now ≤ PIECE_BYTES }
        ensures pushed { OnTrue result (self.new ≡ record self.old {
          pieces = self.old.pieces ++ record { number = number; bytes = bytes.now } ∷ [];
        }) }
        ensures unchanged { OnFalse result (self.new ≡ self.old) }
        ensures full { OnFalse result (WasFull M.holds self.old.row self.old.pieces) }
    {
        let mut page = self.stock.take(&self.end.rt);
        page.write(number, bytes);
        match self.end.push_sheet(Sheet::Written(page)) {
            Ok(()) => true,
            Err(Sheet::Written(page)) => {
                self.stock.put_back(&self.end.rt, page);
                false
            }
            Err(Sheet::Whole(_)) => unreachable!(),
        }
    }
}

impl<R: Wait, M: RingInvariant> PieceIn<R, M> {
    /// Takes the sheet of the first piece of the row, or nothing if the row was empty at some moment of the call. Takes no memory.
    /// The caller gives the sheet back once it has read it.
    #[inline]
    pub fn pop(&mut self) -> Option<Sheet>
        ensures first { MatchOption result (self.new ≡ self.old) (λ sheet.
            self.new ≡ record self.old { pieces = self.old.pieces ++ piece_of sheet ∷ [] }) }
        ensures empty { IfNone result (WasEmpty M.holds self.old.pieces) }
    {
        self.row.pop_as::<Taken<M>, R>(&self.rt, &mut self.pass)
    }

    /// Takes the sheet of the first piece of connection `number` or a later one. Drops the pieces of earlier
    /// connections before it.
    #[inline]
    pub(crate) fn pop_from(&mut self, number: u32) -> Option<Sheet>
        ensures next { MatchOption result (IsDropped number self.old self.new [])
            (λ sheet. (number ≤ (piece_of sheet).number) × IsDropped number self.old self.new (piece_of sheet ∷ [])) }
        ensures empty { IfNone result (WasEmpty M.holds self.new.pieces) }
    {
        for _ in self.rt.forever() {
            let sheet = self.row.pop_as::<Taken<M>, R>(&self.rt, &mut self.pass)?;
            if sheet.number() >= number {
                return Some(sheet);
            }
            self.returns.put_read(&self.rt, sheet);
        }
        unreachable!()
    }

    /// Gives the page of a sheet that was read back to the pushing end, and drops a frame.
    #[inline]
    pub fn give_back(&self, sheet: Sheet) {
        self.returns.put_read(&self.rt, sheet);
    }

    /// Returns the runtime that its calls wait by.
    pub(crate) fn runtime(&self) -> &R {
        &self.rt
    }
}

/// Returns the two ends of one row unchanged. The caller, who has both, then knows that the pieces taken begin the
/// pieces pushed. Takes no memory.
pub fn join_pieces<R: Wait, M: RingInvariant>(
    outward: RowOut<R, M>,
    inward: PieceIn<R, M>,
) -> (RowOut<R, M>, PieceIn<R, M>)
    requires { outward.row ≡ inward.row }
    ensures ends { (result.0 ≡ outward) × (result.1 ≡ inward) }
    ensures begins { (rest : List PieceState) × (inward.pieces ++ rest ≡ outward.pieces) }
{
    let RowOut { rt, row, mut pass } = outward;
    let PieceIn {
        rt: other_rt,
        row: other,
        pass: taker,
        returns,
    } = inward;
    row.absorb::<Ends>(&mut pass, taker);
    row.learn_as::<Whole>(&mut pass);
    let taker = row.another::<Ends>(&mut pass);
    (
        RowOut { rt, row, pass },
        PieceIn {
            rt: other_rt,
            row: other,
            pass: taker,
            returns,
        },
    )
}
