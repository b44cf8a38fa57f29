//! Laws of the frame format, for every reader and writer. These functions do nothing: each contract is a law over the
//! same definitions that the contracts of [`encode`](crate::encode), [`decode`](crate::decode) and
//! [`Decoder::feed`](crate::Decoder::feed) cite.
ghost use Rattle.std.specs.Prelude.{◌≡◌, ℕ, List, ◌++◌, Option, Result, Ok};
ghost use Rattle.std.specs.List.{flat_map};
ghost use Rattle.blocks.specs.declared.refusal.Refusal.{Refusal};
ghost use Rattle.packets.specs.declared.packet.Packet.{Packet};
ghost use Rattle.packets.specs.Spelling.{spelling, IsSpellable, Spells};
ghost use Rattle.packets.specs.Cutting.{IsCut};
ghost use Rattle.packets.specs.Frames.{Answers};
ghost use Rattle.packets.specs.Stream.{Decodes, Gives, IsWritten, Reads};

/// States the round trip: if a reader decodes frames as `decode` does, it decodes the encoding of a packet to that
/// packet.
pub fn round_trip()
    ensures { (p : Packet) (frame : List ℕ) (answer : Result Packet Refusal)
        → IsSpellable p → Spells p frame → Answers frame answer → answer ≡ Ok p }
{}

/// States that a frame decodes to one result, a packet or a refusal.
pub fn one_answer()
    ensures { (frame : List ℕ) (a b : Result Packet Refusal) → Answers frame a → Answers frame b → a ≡ b }
{}

/// States that no encoding begins another: if two begin the same bytes, they are of one packet.
pub fn no_spelling_begins_another()
    ensures { (p q : Packet) (x y : List ℕ)
        → IsWritten p → IsWritten q → spelling p ++ x ≡ spelling q ++ y → (p ≡ q) × (x ≡ y) }
{}

/// States that a stream is read in one way: it has one list of packets, one rest after them and one fault or none.
pub fn one_reading()
    ensures { (stream : List ℕ) (a b : List Packet) (rest other : List ℕ) (fault another : Option Refusal)
        → Reads stream a rest fault → Reads stream b other another
        → (a ≡ b) × (rest ≡ other) × (fault ≡ another) }
{}

/// States that it does not matter how a stream is cut: pieces that make the same bytes decode to the same packets,
/// and to the same fault or none.
pub fn any_pieces()
    ensures { (pieces others : List (List ℕ)) (a b : List Packet) (fault another : Option Refusal)
        → flat_map (λ piece. piece) pieces ≡ flat_map (λ piece. piece) others
        → Decodes pieces a fault → Decodes others b another → (a ≡ b) × (fault ≡ another) }
{}

/// States that one piece after another gives what both give together: the packets of both, and the rest of the
/// second.
pub fn one_piece_after_another()
    ensures { (bytes piece left rest : List ℕ) (old given new : List Packet)
        → Gives bytes old given left → Gives (left ++ piece) given new rest
        → Gives (bytes ++ piece) old new rest }
{}

/// States that a reader cuts an encoding off as one frame.
pub fn spelling_is_cut()
    ensures { (p : Packet) (frame : List ℕ) → IsSpellable p → Spells p frame → IsCut frame }
{}

/// States that the bytes decide what is cut off their front: two frames cut off the same bytes are equal.
pub fn one_cut()
    ensures { (f g x y : List ℕ) → IsCut f → IsCut g → f ++ x ≡ g ++ y → (f ≡ g) × (x ≡ y) }
{}
