//! The decoder of a stream of bytes, in any pieces, into packets.
ghost use Rattle.std.specs.Prelude.{◌≡◌, ◌≢◌, ◌+◌, ◌<◌, ◌≤◌, ◌++◌, [], length, take, Option, Some, None, Err, IfErr, OnErr, OnOk, IfOk};
ghost use Rattle.packets.specs.Stream.{IsPart, IsFront, Gives, Stops};
ghost use Rattle.packets.specs.Steps.{IsJudged, Advances, Adds, left_of};
ghost use Rattle.packets.specs.declared.cutting.TheConstants.{MAX_FRAME_BYTES};
ghost use Rattle.blocks.specs.declared.refusal.Refusal.{Refusal};
ghost use Rattle.blocks.specs.declared.refusal.Refusal.TheVariants.{NoMemory};

use crate::header::{HEADER_BYTES, Header};
use crate::reading::packet_of;
use crate::{FIXED_BYTES, FixedPart, Frame, Packet};
use blocks::Refusal;
use bytes::{Bytes, BytesMut};
use std::alloc::Global;
use std::marker::Model;

/// A decoder that takes a stream of frames in pieces, and gives their packets. It looks at each byte a bounded number
/// of times, however small the pieces are.
#[derive(Drop)]
pub struct Decoder {
    alloc: Global,
    // The front of a frame that is not whole.
    rest: BytesMut,
    // The header of that frame, once its 8 bytes are there.
    header: Option<Header>,
    // The fault of the stream, once it is met.
    fault: Option<Refusal>,
}

impl Model for Decoder {
    ghost use Rattle.packets.specs.Stream.{Held, IsPart};

    ghost Value = { Held };

    ghost view = { λ d. record { rest = d.rest.items; fault = d.fault } };

    ghost invariant = { λ d. IsPart d.header d.rest.items };
}

impl Decoder {
    /// Returns a decoder at the beginning of a stream. It takes no memory yet.
    pub fn new(alloc: Global) -> Decoder
        ensures { result ≡ record { rest = []; fault = None } }
    {
        Decoder {
            alloc,
            rest: BytesMut::new(alloc),
            header: None,
            fault: None,
        }
    }

    /// Takes the next piece of the stream, and appends to `out` the packet of each frame that is whole now.
    ///
    /// A header is checked once its 8 bytes are there: `BadMagic` (20), then `BadCommand` (21), then `BadLength`
    /// (22). A payload is checked once all of it is there: `BadField` (23). The packets before the fault are
    /// appended; each further call returns the same refusal and appends nothing. `NoMemory` (7) leaves the decoder
    /// and `out` as they were.
    pub fn feed(&mut self, piece: &[u8], out: &mut Vec<Packet>) -> Result<(), Refusal>
        // The bytes that came are the encodings of the appended packets, and then the rest.
        ensures given { OnOk result (Gives (self.old.rest ++ piece.now)
            out.old.items out.new.items self.new.rest) }
        // The rest is less than a whole frame.
        ensures part { OnOk result (IsFront self.new.rest) }
        ensures running { OnOk result (self.new.fault ≡ None) }
        // The fault is in the frame after the appended packets.
        ensures fault { IfErr result (λ e. e ≢ NoMemory → self.old.fault ≡ None
            → Stops (self.old.rest ++ piece.now) out.old.items out.new.items e) }
        ensures stopped { IfErr result (λ e. e ≢ NoMemory → self.new.fault ≡ Some e) }
        ensures again { (e : Refusal) → self.old.fault ≡ Some e
            → (result ≡ Err e) × (self.new ≡ self.old) × (out.new.items ≡ out.old.items) }
        ensures no_memory { IfErr result (λ e. e ≡ NoMemory
            → (self.new ≡ self.old) × (out.new.items ≡ out.old.items)) }
        ensures bounded { length self.new.rest < MAX_FRAME_BYTES }
    {
        if let Some(fault) = self.fault {
            return Err(fault);
        }
        let given = out.len();
        let taken = self.take(piece, out);
        match taken {
            Ok(()) => {}
            Err(Refusal::NoMemory) => out.truncate(given),
            Err(fault) => self.stop(fault),
        }
        taken
    }

    /// Takes the whole frames, and keeps the remaining bytes. An error leaves the decoder as it was, with packets at
    /// the end of the list.
    #[tactic(auto, using(crate::proofs::Rows::part_bounded))]
    fn take(&mut self, piece: &[u8], out: &mut Vec<Packet>) -> Result<(), Refusal>
        ensures given { OnOk result (Gives (self.old.rest ++ piece.now)
            out.old.items out.new.items self.new.rest) }
        ensures part { OnOk result (IsFront self.new.rest) }
        ensures fault { self.new.fault ≡ self.old.fault }
        ensures stopped { IfErr result (λ e. e ≢ NoMemory
            → Stops (self.old.rest ++ piece.now) out.old.items out.new.items e) }
        ensures err { OnErr result (self.new ≡ self.old) }
        ensures added { Adds out.old.items out.new.items }
        ensures bounded { length self.new.rest < MAX_FRAME_BYTES }
    {
        let left = whole_frames(self.alloc, self.rest.as_slice(), self.header, piece, out)?;
        self.rest.reserve(left.piece.len())?;
        if left.has_taken {
            self.rest.clear();
        }
        self.rest.extend_reserved(left.piece);
        self.header = left.header;
        Ok(())
    }

    /// Makes each further call return this fault.
    fn stop(&mut self, fault: Refusal)
        ensures { self.new ≡ record { rest = []; fault = Some fault } }
    {
        self.rest.clear();
        self.header = None;
        self.fault = Some(fault);
    }
}

/// The remainder of a rest and a piece once the whole frames at their front are taken.
#[derive(Drop)]
struct Left<'a> {
    /// Whether a frame was taken, and with it the whole rest.
    has_taken: bool,
    /// The end of the piece.
    piece: &'a [u8],
    /// The header of the frame that is not whole, once its 8 bytes are there.
    header: Option<Header>,
}

/// The front of a stream.
#[derive(Drop)]
enum Next<'a> {
    /// A whole frame, and the bytes after it.
    Whole(Packet, &'a [u8]),
    /// Less than a whole frame, with its header once that is there.
    Part(Option<Header>),
}

/// Appends to `out` the packets of the whole frames that the rest and the piece after it begin with. Returns the
/// remainder.
fn whole_frames<'a>(
    alloc: Global,
    rest: &[u8],
    header: Option<Header>,
    piece: &'a [u8],
    out: &mut Vec<Packet>,
) -> Result<Left<'a>, Refusal>
    requires { IsPart header rest.now }
    ensures part { IfOk result (λ left. IsPart left.header (left_of rest.now left)) }
    ensures given { IfOk result (λ left.
        Gives (rest.now ++ piece.now) out.old.items out.new.items (left_of rest.now left)) }
    ensures stopped { IfErr result (λ e. e ≢ NoMemory
        → Stops (rest.now ++ piece.now) out.old.items out.new.items e) }
    ensures added { Adds out.old.items out.new.items }
{
    let mut front = rest;
    let mut header = header;
    let mut piece = piece;
    let mut has_taken = false;
    loop {
        match next_frame(alloc, front, header, piece)? {
            Next::Whole(packet, after) => {
                out.push(packet)?;
                front = &[];
                header = None;
                piece = after;
                has_taken = true;
            }
            Next::Part(header) => {
                return Ok(Left {
                    has_taken,
                    piece,
                    header,
                });
            }
        }
    }
}

/// Decodes the frame that begins with `front` and goes on in `piece`.
fn next_frame<'a>(
    alloc: Global,
    front: &[u8],
    header: Option<Header>,
    piece: &'a [u8],
) -> Result<Next<'a>, Refusal>
    requires { IsPart header front.now }
    ensures { Advances result (front.now ++ piece.now) }
{
    let Some(header) = header_of(front, header, piece)? else {
        return Ok(Next::Part(None));
    };
    let missing = HEADER_BYTES + header.len as usize - front.len();
    if piece.len() < missing {
        return Ok(Next::Part(Some(header)));
    }
    let (end, after) = piece.split_at(missing);
    let frame = frame_of(alloc, front, end)?;
    Ok(Next::Whole(packet_of(header, frame)?, after))
}

/// Returns the header of the frame that begins with `front` and goes on in `piece`, if its 8 bytes are there. Does
/// not check a header again that was checked before.
fn header_of(front: &[u8], header: Option<Header>, piece: &[u8]) -> Result<Option<Header>, Refusal>
    requires { IsPart header front.now }
    ensures { IsJudged result (front.now ++ piece.now) }
{
    match header {
        Some(header) => Ok(Some(header)),
        None if piece.len() < HEADER_BYTES - front.len() => Ok(None),
        None => Ok(Some(Header::judge(&first_bytes(front, piece))?)),
    }
}

/// Returns the first 8 bytes of a frame that begins with `front` and goes on in `piece`.
fn first_bytes(front: &[u8], piece: &[u8]) -> [u8; HEADER_BYTES]
    requires short { length front.now < 8 }
    requires long { 8 ≤ length front.now + length piece.now }
    ensures { result ≡ take 8 (front.now ++ piece.now) }
{
    let mut bytes = [0; HEADER_BYTES];
    let (first, others) = bytes.split_at_mut(front.len());
    first.copy_from_slice(front);
    others.copy_from_slice(&piece[..HEADER_BYTES - front.len()]);
    bytes
}

/// Returns a frame of these bytes. If it is too long to be inline, it has a buffer of its own.
fn frame_of(alloc: Global, front: &[u8], end: &[u8]) -> Result<Frame, Refusal>
    ensures joined { IfOk result (λ frame. frame ≡ front.now ++ end.now) }
    ensures refused { IfErr result (λ e. e ≡ NoMemory) }
{
    if front.len().saturating_add(end.len()) > FIXED_BYTES {
        return Ok(Frame::new(joined(alloc, front, end)?));
    }
    let mut part = FixedPart::new();
    part.put(front);
    part.put(end);
    Ok(Frame::of(part))
}

/// Returns the bytes of both, in a buffer of their own. `NoMemory` (7) if it cannot be allocated.
fn joined(alloc: Global, front: &[u8], end: &[u8]) -> Result<Bytes, Refusal>
    ensures joined { IfOk result (λ b. b ≡ front.now ++ end.now) }
    ensures refused { IfErr result (λ e. e ≡ NoMemory) }
{
    let mut bytes = Vec::with_capacity(alloc, front.len().saturating_add(end.len()))?;
    bytes.extend_from_slice(front)?;
    bytes.extend_from_slice(end)?;
    Ok(Bytes::from_vec(bytes)?)
}
