//! The receiving end of a link between threads.
ghost use Rattle.std.specs.Prelude.{◌≡◌, ◌<◌, ◌≤◌, [], ◌∷◌, ◌++◌, length, take, true, false, None, IfOk, OnOk, OnErr, IfErr, IfNone, IfSome, MatchOption, Some};
ghost use Rattle.packets.specs.Cutting.{IsCut};
ghost use Rattle.packets.specs.declared.fixed_part.TheConstants.{FIXED_BYTES};
ghost use Rattle.thread_link.specs.Carried.{BeginsNoCut};
ghost use Rattle.thread_link.specs.Moments.{WasEmpty};
ghost use Rattle.thread_link.specs.Pieces.{bytes_if};
ghost use Rattle.thread_link.specs.Row.{piece_of};
ghost use Rattle.thread_link.specs.Inward.{in_hand, is_later, later_of, not_before, rest_on, taking, taking_anew, unused_in, with_popped, with_taken};
ghost use Rattle.blocks.specs.declared.refusal.Refusal.TheVariants.{NoMemory, NothingThere};

use crate::gathered::Gathered;
use crate::rest::Rest;
use crate::{NoInvariant, Piece, PieceIn, RingInvariant, Sheet};
use blocks::Refusal;
use link::{FrameIn, GhostFrames};
use packets::{Frame, is_cut};
use std::alloc::Global;
use std::marker::Model;
use std::sync::Wait;

/// The receiving end of one direction of a link whose two ends may be in two threads. It takes a frame that came as a whole as it
/// is, and assembles frames from pieces that are cut in any way.
#[derive(Drop)]
pub struct RuledIn<R: Wait, M: RingInvariant = NoInvariant> {
    pub(crate) pieces: PieceIn<R, M>,
    pub(crate) number: u32,
    pub(crate) taken: GhostFrames,
    // The bytes of the next frame that have arrived.
    pub(crate) front: Gathered,
    // The bytes of the last piece that are not used yet, or a whole piece of a later connection.
    pub(crate) rest: Option<Rest>,
}

impl<R: Wait, M: RingInvariant> Model for RuledIn<R, M> {
    ghost use Rattle.thread_link.specs.Inward.{InwardState, Takes, inward_state};

    ghost Value = { InwardState };

    ghost view = { λ e. inward_state e.pieces e.taken.went e.number e.front e.rest };

    ghost invariant = { λ e. Takes (inward_state e.pieces e.taken.went e.number e.front e.rest) };
}

impl<R: Wait, M: RingInvariant> RuledIn<R, M> {
    /// Creates an end that pops from `pieces`, on a first connection. `NoMemory` (7) if there is no memory for the
    /// buffer for the longest frame.
    pub fn new(alloc: Global, pieces: PieceIn<R, M>) -> Result<RuledIn<R, M>, Refusal>
    where
        R: Drop,
        requires { pieces.pieces ≡ [] }
        ensures unused { IfOk result (λ end. end ≡ unused_in pieces.row) }
        ensures refused { IfErr result (λ e. e ≡ NoMemory) }
    {
        Ok(RuledIn {
            pieces,
            number: 1,
            taken: GhostFrames::new(),
            front: Gathered::new(alloc)?,
            rest: None,
        })
    }

    /// Takes the next frame if the bytes in hand contain all of it.
    fn next_in_hand(&mut self) -> Option<Frame>
        requires { self.old.is_ready ≡ true }
        ensures frame { MatchOption result
            ((self.new ≡ record self.old { front = in_hand self.old; rest = self.new.rest })
            × (rest_on self.new.number self.new.rest ≡ []))
            (λ frame. (self.new ≡ record self.old {
              taken = self.old.taken ++ frame ∷ [];
              is_ready = self.new.is_ready;
              front = [];
              rest = self.new.rest;
            }) × IsCut frame × (length frame ≤ FIXED_BYTES → self.new.is_ready ≡ true)) }
        // If there is none, no whole frame can be cut off the bytes in hand.
        ensures none { IfNone result (BeginsNoCut (in_hand self.old)) }
    {
        gather(&mut self.front, &mut self.rest, self.number);
        let frame = self.front.cut(self.pieces.runtime())?;
        self.taken = self.taken.and(&frame);
        Some(frame)
    }

    /// Pops the next piece and returns the frame that it completes, if any. `NothingThere` (13) if there is no piece,
    /// or if the piece is of a later connection.
    fn next_piece(&mut self) -> Result<Option<Frame>, Refusal>
        requires ready { self.old.is_ready ≡ true }
        requires spent { rest_on self.old.number self.old.rest ≡ [] }
        requires now { later_of self.old.number self.old.rest ≡ [] }
        ensures frame { IfOk result (λ found. IfSome found (λ frame. (self.new ≡ record self.old {
          pieces = self.new.pieces;
          taken = self.old.taken ++ frame ∷ [];
          is_ready = self.new.is_ready;
          front = [];
          rest = self.new.rest;
        }) × IsCut frame × (length frame ≤ FIXED_BYTES → self.new.is_ready ≡ true))) }
        ensures none { IfOk result (λ found. IfNone found (self.new ≡ with_popped self.new self.old)) }
        // If no frame is whole, more bytes are in hand than before, and none of them lies behind the frame's end.
        ensures more { IfOk result (λ found. IfNone found (length (in_hand self.old) < length (in_hand self.new))) }
        ensures part { IfOk result (λ found. IfNone found (BeginsNoCut (in_hand self.new))) }
        ensures spent { IfOk result (λ found. IfNone found (rest_on self.new.number self.new.rest ≡ [])) }
        ensures now { IfOk result (λ found. IfNone found (later_of self.new.number self.new.rest ≡ [])) }
        ensures refused { IfErr result (λ e. e ≡ NothingThere) }
        ensures empty { OnErr result (is_later self.new.number self.new.rest ≡ false → WasEmpty M.holds self.new.pieces) }
        ensures same { OnErr result (self.new ≡ record self.old {
          pieces = self.new.pieces;
          rest = self.new.rest;
        }) }
        ensures kept { OnErr result (in_hand self.new ≡ in_hand self.old) }
    {
        let Some(sheet) = self.pieces.pop_from(self.number) else {
            return Err(Refusal::NothingThere);
        };
        let is_later = sheet.number() > self.number;
        let sheet = match lone_frame(&self.front, is_later, sheet) {
            Ok(frame) => {
                self.taken = self.taken.and(&frame);
                return Ok(Some(frame));
            }
            Err(sheet) => sheet,
        };
        if let Some(page) = take_in_hand(&mut self.front, &mut self.rest, self.number, sheet) {
            self.pieces.give_back(Sheet::Written(page));
        }
        if is_later {
            return Err(Refusal::NothingThere);
        }
        let Some(frame) = self.front.cut(self.pieces.runtime()) else {
            return Ok(None);
        };
        self.taken = self.taken.and(&frame);
        Ok(Some(frame))
    }

    /// Returns whether the piece in hand is of a later connection.
    fn holds_later(&self) -> bool
        ensures { result ≡ is_later self.now.number self.now.rest }
    {
        match &self.rest {
            Some(rest) => rest.number() > self.number,
            None => false,
        }
    }
}

impl<R: Wait, M: RingInvariant> FrameIn for RuledIn<R, M> {
    ghost state = { λ e. taking e };

    fn ready(&mut self) -> Result<(), Refusal>
        ensures ready { OnOk result (self.new ≡ record self.old { is_ready = true }) }
        ensures unchanged { OnErr result (self.new ≡ self.old) }
        ensures refused { IfErr result (λ e. e ≡ NoMemory) }
    {
        self.front.ready()
    }

    fn take(&mut self) -> Result<Frame, Refusal>
        requires { self.old.is_ready ≡ true }
        ensures next { IfOk result (λ frame. self.new ≡ with_taken frame self.new self.old) }
        ensures cut { IfOk result (λ frame. IsCut frame) }
        ensures still_ready { IfOk result (λ frame. length frame ≤ FIXED_BYTES → self.new.is_ready ≡ true) }
        ensures refused { IfErr result (λ e. e ≡ NothingThere) }
        // The bytes then in hand begin with no whole frame.
        ensures nothing { OnErr result (BeginsNoCut (in_hand self.new)) }
        // The row was empty at a moment, unless a piece of a later connection is in hand.
        ensures empty { OnErr result (is_later self.new.number self.new.rest ≡ false → WasEmpty M.holds self.new.pieces) }
        ensures unchanged { OnErr result (self.new ≡ with_popped self.new self.old) }
    {
        if let Some(frame) = self.next_in_hand() {
            return Ok(frame);
        }
        if self.holds_later() {
            return Err(Refusal::NothingThere);
        }
        loop {
            if let Some(frame) = self.next_piece()? {
                return Ok(frame);
            }
        }
    }

    fn restart(&mut self, number: u32)
        requires { self.old.number < number }
        ensures { self.new ≡ taking_anew number self.old }
    {
        self.taken = self.taken.over(&self.number);
        self.number = number;
        self.front.clear();
        drop_before(&mut self.rest, number);
    }
}

/// Appends to the frame as many bytes of the piece in hand as the frame lacks, if the piece is of connection `number`.
fn gather(front: &mut Gathered, rest: &mut Option<Rest>, number: u32)
    requires { front.old.is_ready ≡ true }
    ensures bytes { front.new.bytes ++ rest_on number rest.new ≡ front.old.bytes ++ rest_on number rest.old }
    ensures ready { front.new.is_ready ≡ true }
    ensures later { later_of number rest.new ≡ later_of number rest.old }
    // Some bytes remain only if the frame is whole.
    ensures all { BeginsNoCut front.new.bytes → rest_on number rest.new ≡ [] }
{
    if let Some(rest) = rest
        && rest.number() == number
    {
        let (first, second) = rest.parts();
        let used = front.put_parts(first, second);
        rest.advance(used);
    }
}

/// Returns the frame of a sheet that is of the present connection and holds one whole frame, if no bytes are in hand. Gives back
/// any other sheet.
#[inline]
fn lone_frame(front: &Gathered, is_later: bool, sheet: Sheet) -> Result<Frame, Sheet>
    ensures frame { IfOk result (λ frame. IsCut frame × (frame ≡ (piece_of sheet).bytes) × (front.now.bytes ≡ []) × (is_later ≡ false)) }
    ensures back { IfErr result (λ back. back ≡ sheet) }
{
    match sheet {
        Sheet::Whole(numbered) => {
            if !is_later && front.is_empty() && is_cut(numbered.frame()) {
                Ok(numbered.into_frame())
            } else {
                Err(Sheet::Whole(numbered))
            }
        }
        Sheet::Written(_) => Err(sheet),
    }
}

/// Takes a popped sheet in hand. If it is of connection `number`, appends as many of its bytes as the frame lacks.
/// Keeps the remaining bytes in `rest`. Returns the page that can go back to the row.
#[inline]
fn take_in_hand(
    front: &mut Gathered,
    rest: &mut Option<Rest>,
    number: u32,
    sheet: Sheet,
) -> Option<Box<Piece>>
    requires ready { front.old.is_ready ≡ true }
    requires spent { rest_on number rest.old ≡ [] }
    requires now { later_of number rest.old ≡ [] }
    ensures bytes { front.new.bytes ++ rest_on number rest.new ≡ front.old.bytes ++ bytes_if number (piece_of sheet) }
    ensures ready { front.new.is_ready ≡ true }
    ensures later { later_of number rest.new ≡ later_of number (Some (piece_of sheet)) }
    ensures none { bytes_if number (piece_of sheet) ≡ [] → front.new ≡ front.old }
    ensures some { 0 < length (piece_of sheet).bytes }
    // Some bytes remain only if the frame is whole.
    ensures all { BeginsNoCut front.new.bytes → rest_on number rest.new ≡ [] }
{
    let used = put_own(front, number, &sheet);
    if used == sheet.len() {
        return sheet.into_page();
    }
    let (left, page) = Rest::of(sheet, used);
    *rest = Some(left);
    page
}

/// Appends as many bytes of a sheet as the frame lacks, if the sheet is of connection `number`. Returns how many.
#[inline]
fn put_own(front: &mut Gathered, number: u32, sheet: &Sheet) -> usize
    requires { front.old.is_ready ≡ true }
    ensures within { result ≤ length (bytes_if number (piece_of sheet.now)) }
    ensures put { front.new ≡ record front.old { bytes = front.old.bytes ++ take result (bytes_if number (piece_of sheet.now)) } }
    ensures all { BeginsNoCut front.new.bytes → result ≡ length (bytes_if number (piece_of sheet.now)) }
{
    if sheet.number() != number {
        return 0;
    }
    let (first, second) = sheet.parts();
    front.put_parts(first, second)
}

/// Drops the piece in hand if it is of an earlier connection than `number`.
fn drop_before(rest: &mut Option<Rest>, number: u32)
    ensures { rest.new ≡ not_before number rest.old }
{
    let is_old = match rest {
        Some(rest) => rest.number() < number,
        None => false,
    };
    if is_old {
        *rest = None;
    }
}
