//! What a server does with what it finds of both images' metadata.
ghost use Rattle.std.specs.Prelude.{◌≡◌};
ghost use Rattle.image_metadata.specs.Starts.{last_end, start_of, start_of_both};

use crate::search::{Found, Saved};
use metadata::{BootId, Identifiers, MetadataFault};
use std::fmt;

/// How the server ended that used the images last.
#[derive(Clone, Copy, Debug, PartialEq, Eq)]
pub enum LastEnd {
    /// By an order to end: nothing was under way.
    Clean,
    /// It was killed, or failed, while its system ran on.
    Killed,
    /// Its system was started anew since, so that what was not synced may be lost.
    PowerLost,
}

/// Why all of the local image is copied over the peer's.
#[derive(Clone, Copy, Debug, PartialEq, Eq)]
pub enum WholeCopy {
    /// The local image has no metadata.
    LocalMissing,
    /// The peer's image has no metadata.
    PeerMissing,
    /// The local image's metadata cannot be used.
    LocalUnusable(MetadataFault),
    /// The peer's image's metadata cannot be used.
    PeerUnusable(MetadataFault),
    /// The images are of different pairs.
    OtherPair,
    /// Another program has changed the local image since a clean end.
    LocalChanged,
    /// Another program has changed the peer's image since a clean end.
    PeerChanged,
    /// The peer's image was the secondary of another node.
    OtherPrimary,
}

/// How a server begins.
#[derive(Clone, Copy, Debug, PartialEq, Eq)]
pub enum Start {
    /// Neither image has metadata.
    First,
    /// What the local image's metadata has marked is copied. `is_peer_doubted`: the peer's image was not consistent, or may have lost
    /// writes with its system.
    Marked {
        last: LastEnd,
        is_peer_doubted: bool,
    },
    /// All of the local image is copied over the peer's.
    Whole(WholeCopy),
    /// The local image was a secondary's and the peer's the primary's.
    WrongWayRound,
}

/// Returns how a server begins over two images of whose metadata this was found, on a system with this id. The first case of `start_of`
/// that holds decides (this project's rule).
pub fn judge(local: &Found, peer: &Found, boot: BootId) -> Start
    ensures { result ≡ start_of local.now peer.now boot }
{
    match (local, peer) {
        (Found::Missing, Found::Missing) => Start::First,
        (Found::Says(local), Found::Says(peer)) => judge_both(local, peer, boot),
        (Found::Missing, _) => Start::Whole(WholeCopy::LocalMissing),
        (Found::Unusable(fault), _) => Start::Whole(WholeCopy::LocalUnusable(*fault)),
        (_, Found::Missing) => Start::Whole(WholeCopy::PeerMissing),
        (_, Found::Unusable(fault)) => Start::Whole(WholeCopy::PeerUnusable(*fault)),
    }
}

// The same where both say something.
fn judge_both(local: &Saved, peer: &Saved, boot: BootId) -> Start
    ensures { result ≡ start_of_both local.now peer.now boot }
{
    let (own, other) = (&local.identifiers, &peer.identifiers);
    if local.header.pair != peer.header.pair {
        return Start::Whole(WholeCopy::OtherPair);
    }
    if !own.is_primary && other.is_primary {
        return Start::WrongWayRound;
    }
    if !local.is_image_unchanged {
        return Start::Whole(WholeCopy::LocalChanged);
    }
    if !peer.is_image_unchanged {
        return Start::Whole(WholeCopy::PeerChanged);
    }
    if other.secondary_of != local.header.node {
        return Start::Whole(WholeCopy::OtherPrimary);
    }
    Start::Marked {
        last: last_end(own, boot),
        is_peer_doubted: !other.is_consistent || last_end(other, boot) == LastEnd::PowerLost,
    }
}

// Returns how the last server ended that used this image.
fn last_end(identifiers: &Identifiers, boot: BootId) -> LastEnd
    ensures { result ≡ last_end identifiers.now boot }
{
    if identifiers.clean_end.is_some() {
        LastEnd::Clean
    } else if identifiers.boot == boot {
        LastEnd::Killed
    } else {
        LastEnd::PowerLost
    }
}

impl fmt::Display for LastEnd {
    fn fmt<W: fmt::Write>(&self, f: &mut fmt::Formatter<W>) -> fmt::Result {
        f.write_str(match self {
            LastEnd::Clean => "ended as it was told to",
            LastEnd::Killed => "was killed",
            LastEnd::PowerLost => "ended with its system",
        })
    }
}

impl fmt::Display for WholeCopy {
    fn fmt<W: fmt::Write>(&self, f: &mut fmt::Formatter<W>) -> fmt::Result {
        match self {
            WholeCopy::LocalMissing => f.write_str("the local image has no metadata"),
            WholeCopy::PeerMissing => f.write_str("the peer's image has no metadata"),
            WholeCopy::LocalUnusable(fault) => write!(
                f,
                "the local image's metadata cannot be used: {fault}"
            ),
            WholeCopy::PeerUnusable(fault) => write!(
                f,
                "the peer's image's metadata cannot be used: {fault}"
            ),
            WholeCopy::OtherPair => f.write_str("the two images are not of one pair"),
            WholeCopy::LocalChanged => f.write_str(
                "another program has changed the local image since the last end",
            ),
            WholeCopy::PeerChanged => f.write_str(
                "another program has changed the peer's image since the last end",
            ),
            WholeCopy::OtherPrimary => f.write_str(
                "the peer's image was last mirrored from another one",
            ),
        }
    }
}
