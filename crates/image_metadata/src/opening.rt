//! The identifiers that a session begins with.
ghost use Rattle.std.specs.Prelude.{◌≡◌, true, Ok};
ghost use Rattle.blocks.specs.Identifiers.{decision};
ghost use Rattle.blocks.specs.declared.outcome.Decision.TheVariants.{NoSync};
ghost use Rattle.image_metadata.specs.Opening.{opening_of_start, turned};

use crate::judging::Start;
use blocks::Tuple;
use generations::{Generations, decide};

/// The identifiers of a disk about which nothing is known.
pub const UNKNOWN: Tuple = Tuple {
    current: 0,
    bitmap: 0,
    first_historical: 0,
    second_historical: 0,
};

/// The identifiers of both disks in a session that begins, and whether the peer's disk is doubted until a resync has ended.
#[derive(Clone, Copy, Debug, PartialEq, Eq)]
pub struct OpeningIdentifiers {
    pub own: Tuple,
    pub peer: Tuple,
    pub is_peer_doubted: bool,
}

/// Returns the identifiers that a session begins with, of those that the metadata of both images says. The peer's disk is unknown, so that
/// all is copied, if the start is a whole copy or the primary refuses the peer's identifiers.
///
/// If both disks have the same current identifier, and blocks are marked, the primary's turns under `word`: else nothing would be copied.
/// That is so once a save of the metadata has failed as a stream began: the identifiers are those from before it (this project's rule).
pub fn opening_identifiers(
    start: Start,
    own: Tuple,
    peer: Tuple,
    has_marks: bool,
    word: u64,
) -> OpeningIdentifiers
    ensures begins { result ≡ opening_of_start start own peer has_marks word }
    ensures copies { has_marks ≡ true → (word ≡ peer.current → ⊥) → (own.current ≡ peer.current → own.bitmap ≡ 0) → decision result.own result.peer ≡ Ok NoSync → ⊥ }
{
    match start {
        Start::Marked {
            is_peer_doubted,
            ..
        } if decide(&own, &peer).is_ok() => OpeningIdentifiers {
            own: turned(own, peer, has_marks, word),
            peer,
            is_peer_doubted,
        },
        _ => OpeningIdentifiers {
            own,
            peer: UNKNOWN,
            is_peer_doubted: true,
        },
    }
}

// Returns the primary's identifiers, turned if blocks are marked that would not be copied to a disk with these.
fn turned(own: Tuple, peer: Tuple, has_marks: bool, word: u64) -> Tuple
    ensures { result ≡ turned own peer has_marks word }
{
    let mut generations = Generations { tuple: own };
    if has_marks && own.current == peer.current {
        generations.lost(word);
    }
    generations.tuple
}
