//! Laws of the machine over whole messages. These functions do nothing: each contract is a law over the
//! definitions that the contract of [`Connection::feed`](crate::Connection::feed) cites.
ghost use Rattle.std.specs.Prelude.{◌≡◌, ◌⊎◌, Bool, ℕ, ◌+◌, ◌/◌, ◌<◌, ◌≤◌, List, ◌++◌, filter, flat_map, length, slice_index};
ghost use Rattle.std.specs.List.{AllByRecursion};
ghost use Rattle.nbd.specs.Exports.{Exported};
ghost use Rattle.nbd.specs.Machine.{Machine, fed, then_fed};
ghost use Rattle.nbd.specs.Messages.{ClientOption, FitsOption, IsMessage, Message, Parses, answer, answers, at_option, at_request, message_bytes};
ghost use Rattle.nbd.specs.Messages.{option_answer, option_bytes, stream_of};
ghost use Rattle.nbd.specs.Inside.{IsInside};
ghost use Rattle.nbd.specs.Pieces.{Joins};
ghost use Rattle.nbd.specs.Requested.{Requested};
ghost use Rattle.nbd.specs.Spans.{IsInsideSpan, IsWholeSpan, IsWithinSpan, JoinsBytes, contents_of, covering, is_edge, places, spans, trimmed};

/// It does not matter how the bytes are cut: two pieces, one after the other, have the output of both
/// together.
pub fn one_piece_after_another()
    ensures { (m : Machine) (bytes piece : List ℕ)
        → fed m (bytes ++ piece) ≡ then_fed (fed m bytes) (fed (fed m bytes).machine piece) }
{}

/// An option has one reply, whatever its length: if it has too much data, it is refused, or closes the connection if it
/// is EXPORT_NAME.
pub fn one_reply_to_an_option()
    ensures { (of : ℕ) (e : Exported) (no_zeroes : Bool) (o : ClientOption) → FitsOption o
        → fed (at_option of e no_zeroes) (option_bytes o) ≡ option_answer of e no_zeroes o }
{}

/// A message has one answer: an accepted request is given out once, with its payload; a refused one gets one
/// reply, with its cookie; there is no other output.
pub fn one_answer()
    ensures { (of : ℕ) (e : Exported) (m : Message) → IsMessage m
        → fed (at_request of e) (message_bytes m) ≡ answer of e m }
{}

/// Each of several messages is answered in its turn.
pub fn each_is_answered()
    ensures { (of : ℕ) (e : Exported) (messages : List Message) → AllByRecursion IsMessage messages
        → fed (at_request of e) (stream_of messages) ≡ answers of e messages }
{}

/// The bytes that a client sends, whatever they are, are messages and then a rest that begins with no whole message.
/// The output is the answers to those messages and nothing else.
pub fn nothing_else()
    ensures { (of : ℕ) (e : Exported) (bytes : List ℕ) → ((i : ℕ) → slice_index bytes i < 256) → Parses of e bytes }
{}

/// The spans that a request is cut into cover its bytes, each byte once; at most two of them are not of whole blocks, and the device takes
/// each of the others. A TRIM covers the whole blocks inside its bytes, and a READ reads all blocks that have any.
pub fn spans_cover()
    ensures joined { (offset count : ℕ) → JoinsBytes offset (spans offset count) (offset + count) }
    ensures within { (offset count : ℕ)
        → AllByRecursion (λ s. IsWithinSpan s ⊎ IsWholeSpan (offset + count) s) (spans offset count) }
    ensures edges { (offset count : ℕ) → length (filter is_edge (spans offset count)) ≤ 2 }
    ensures inside { (offset count : ℕ)
        → AllByRecursion (IsInsideSpan offset (offset + count)) (trimmed offset count) }
    ensures read { (offset count : ℕ) → 0 < count
        → Joins (offset / 4096) (covering offset count) ((offset + count + 4095) / 4096) }
{}

/// The pieces of a request have its bytes, one after another: the payload of a WRITE, and zeros of any other command.
pub fn places_are_the_payload()
    ensures { (blocks : ℕ) (r : Requested) → IsInside blocks r → flat_map (λ p. p.bytes) (places r) ≡ contents_of r }
{}
