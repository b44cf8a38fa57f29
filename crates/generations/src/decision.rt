//! The decision of a primary from the tuples of both nodes.
ghost use Rattle.std.specs.Prelude.{◌≡◌};
ghost use Rattle.blocks.specs.Identifiers.{decision, is_historical, share_identifier};

use crate::words::stands_in;
use blocks::{Decision, Refusal, Tuple};

/// Returns what the primary with the tuple `own` does with the peer whose tuple is `peer`: the first case that holds
/// decides. A primary is never the target of a resync.
///
/// A peer with no data gets all blocks. One with the same data gets none. One with the data from which on the
/// primary's bitmap records changes gets the marked blocks. One with older data of the primary's gets all.
/// `PrimaryStale` (30) if the peer has newer data, `SplitBrain` (31) if both went on from common data, `Unrelated`
/// (32) if they have no common data (after the DRBD User's Guide, "Generation identifiers"; the cases and their order
/// are this project's rule). It takes no memory.
pub fn decide(own: &Tuple, peer: &Tuple) -> Result<Decision, Refusal>
    ensures { result ≡ decision own.now peer.now }
{
    if peer.current == 0 {
        return Ok(Decision::FullSync);
    }
    if own.current == peer.current {
        return Ok(Decision::NoSync);
    }
    if own.bitmap == peer.current {
        return Ok(Decision::BitmapSync);
    }
    if own.current > 0 && peer.bitmap == own.current {
        return Err(Refusal::PrimaryStale);
    }
    if is_historical(peer.current, own) {
        return Ok(Decision::FullSync);
    }
    if is_historical(own.current, peer) {
        return Err(Refusal::PrimaryStale);
    }
    if own.bitmap > 0 && own.bitmap == peer.bitmap || share_identifier(own, peer) {
        return Err(Refusal::SplitBrain);
    }
    Err(Refusal::Unrelated)
}

/// Returns whether the word is not zero and is one of the tuple's two historical ones.
fn is_historical(word: u64, tuple: &Tuple) -> bool
    ensures { result ≡ is_historical word tuple.now }
{
    word > 0 && (word == tuple.first_historical || word == tuple.second_historical)
}

/// Returns whether an identifier that is not zero is in both tuples.
fn share_identifier(own: &Tuple, peer: &Tuple) -> bool
    ensures { result ≡ share_identifier own.now peer.now }
{
    own.current > 0 && stands_in(own.current, peer)
        || own.bitmap > 0 && stands_in(own.bitmap, peer)
        || own.first_historical > 0 && stands_in(own.first_historical, peer)
        || own.second_historical > 0 && stands_in(own.second_historical, peer)
}
