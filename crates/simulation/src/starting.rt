//! How a session begins: over what the last one left, as a server does it.
use crate::broken::Stopped;
use crate::machine::{Machine, NodeFile};
use crate::mirror::Mirror;
use crate::nodes::{Left, PrimaryNode, SecondaryNode};
use crate::settling::{rest_primary, rest_secondary};
use crate::world::World;
use bitmap::Bitmap;
use blocks::Tuple;
use image_metadata::{
    Found, LastEnd, OpeningIdentifiers, Saved, Start, judge, opening_identifiers,
    serving_identifiers,
};
use kept_nodes::known_marks;
use metadata::{Header, Metadata, MetadataFault, StableFile};
use std::alloc::Global;

/// The identifier of the data that both disks have at first.
const FIRST: u64 = 1;

const PAIR: u64 = 7;

const LOCAL_NODE: u64 = 8;

const PEER_NODE: u64 = 9;

/// Blocks of a device at most.
const MOST_BLOCKS: u64 = 2_147_483_648;

/// What a session begins with.
#[derive(Drop)]
struct Opening {
    identifiers: OpeningIdentifiers,
    marks: Bitmap,
    begun: Begun,
}

/// How a session has begun.
#[derive(Clone, Copy)]
struct Begun {
    // How the last session ended on the local disk's system.
    last: Start,
    is_peer_doubted: bool,
}

/// Makes the metadata of both disks, which are alike.
pub(crate) fn make_metadata(world: &World) {
    let blocks = world.plan.blocks();
    make(world.alloc, &world.local, blocks, LOCAL_NODE, 0);
    make(world.alloc, &world.peer, blocks, PEER_NODE, LOCAL_NODE);
}

// Makes the metadata of a disk in its file, which is empty.
fn make(alloc: Global, machine: &Machine, blocks: u64, node: u64, secondary_of: u64) {
    let header = Header {
        blocks,
        pair: PAIR,
        node,
    };
    let identifiers = serving_identifiers(
        Tuple::new(FIRST, 0, 0, 0),
        true,
        machine.boot,
        secondary_of,
    );
    if blocks == 0 || blocks > MOST_BLOCKS {
        return;
    }
    if let Ok(file) = machine.node_file() {
        let _ = metadata::create(alloc, file, header, &identifiers);
    }
}

/// Begins a session, if it can: whatever runs comes to rest, what has stopped is started, and both nodes open anew.
pub(crate) fn start<P: PrimaryNode, S: SecondaryNode>(
    mirror: &mut Mirror<P, S>,
) -> Result<(), Stopped> {
    rest_primary(mirror)?;
    rest_secondary(mirror)?;
    let is_handed_over = mirror.are_running();
    mirror.world.renew();
    match restart(mirror) {
        Some(begun) => note(&mut mirror.world, is_handed_over, begun)?,
        None => mirror.world.counts.note("starts that failed")?,
    }
    mirror.bury();
    Ok(())
}

// Notes how the last session ended.
fn note(world: &mut World, is_handed_over: bool, begun: Begun) -> Result<(), Stopped> {
    if begun.is_peer_doubted {
        world.counts.note("starts with a peer that is doubted")?;
    }
    let Start::Marked { last, .. } = begun.last else {
        return Ok(());
    };
    world.counts.note(match last {
        _ if is_handed_over => "starts of a further session",
        LastEnd::Clean => "starts after an end",
        LastEnd::Killed => "starts after a kill",
        LastEnd::PowerLost => "starts after a power cut",
    })?;
    Ok(())
}

// Takes what runs down, which is at rest, and opens both nodes over what is left. Returns how that began, if it could.
fn restart<P: PrimaryNode, S: SecondaryNode>(mirror: &mut Mirror<P, S>) -> Option<Begun> {
    let local = match mirror.primary.take() {
        Some(primary) => primary.into_left(mirror.world.alloc),
        None => None,
    };
    let peer = match mirror.secondary.take() {
        Some(secondary) => secondary.into_left(),
        None => None,
    };
    match left_or_opened(&mirror.world, local) {
        Some(local) => begin_with(mirror, local, peer),
        None => None,
    }
}

// Opens both nodes over what the primary left, and what the secondary did, if it did. Returns how that began, if it could.
fn begin_with<P: PrimaryNode, S: SecondaryNode>(
    mirror: &mut Mirror<P, S>,
    local: Left,
    peer: Option<Metadata<NodeFile>>,
) -> Option<Begun> {
    match metadata_or_opened(&mirror.world, peer) {
        Some(peer) => begin(mirror, local, peer),
        None => None,
    }
}

// Opens both nodes over what they left. Returns how that began, if it could.
fn begin<P: PrimaryNode, S: SecondaryNode>(
    mirror: &mut Mirror<P, S>,
    local: Left,
    peer: Metadata<NodeFile>,
) -> Option<Begun> {
    let word = mirror.world.words().loss;
    let Left {
        metadata: mut local,
        marks,
    } = local;
    let mut peer = peer;
    match opening_of(&mirror.world, &mut local, &mut peer, marks, word) {
        Some(opening) => Some(open_both(mirror, opening, local, peer)),
        None => None,
    }
}

// Opens both nodes. If one cannot be opened, both processes end. Returns how that began.
fn open_both<P: PrimaryNode, S: SecondaryNode>(
    mirror: &mut Mirror<P, S>,
    opening: Opening,
    local: Metadata<NodeFile>,
    peer: Metadata<NodeFile>,
) -> Begun {
    let Opening {
        identifiers,
        marks,
        begun,
    } = opening;
    let words = mirror.world.words();
    mirror.primary = P::open(&mirror.world, identifiers.own, marks, words, local);
    mirror.secondary = S::open(
        &mirror.world,
        identifiers.peer,
        identifiers.is_peer_doubted,
        peer,
    );
    if !mirror.are_running() {
        mirror.world.local.process.stop();
        mirror.world.peer.process.stop();
    }
    begun
}

// Returns what the primary left, or what its file says.
fn left_or_opened(world: &World, left: Option<Left>) -> Option<Left> {
    match left {
        Some(left) => Some(left),
        None => match opened(world, &world.local) {
            Some(metadata) => Some(Left {
                metadata,
                marks: None,
            }),
            None => None,
        },
    }
}

// Returns what the secondary left, or what its file says.
fn metadata_or_opened(
    world: &World,
    left: Option<Metadata<NodeFile>>,
) -> Option<Metadata<NodeFile>> {
    match left {
        Some(metadata) => Some(metadata),
        None => opened(world, &world.peer),
    }
}

// Returns the metadata in a machine's file.
fn opened(world: &World, machine: &Machine) -> Option<Metadata<NodeFile>> {
    match machine.node_file() {
        Ok(file) => metadata::open(world.alloc, file, Some(world.plan.blocks())).ok(),
        Err(_) => None,
    }
}

// Returns what a session begins with over both nodes' metadata, as a server does it, and has the metadata say so. In memory are the marks
// of a primary that lived.
fn opening_of<F: StableFile>(
    world: &World,
    local: &mut Metadata<F>,
    peer: &mut Metadata<F>,
    in_memory: Option<Bitmap>,
    word: u64,
) -> Option<Opening> {
    let (own_found, peer_found) = (found(local), found(peer));
    // What the peer's disk may have lost is judged by the id of its system.
    let start = judge(&own_found, &peer_found, world.peer.boot);
    let last = judge(&own_found, &peer_found, world.local.boot);
    let marks = marks_of(world.alloc, local, in_memory, is_doubted(start))?;
    let identifiers = opening_identifiers(
        start,
        local.identifiers().tuple,
        peer.identifiers().tuple,
        marks.count() > 0,
        word,
    );
    let is_peer_doubted = identifiers.is_peer_doubted;
    match save(world, local, peer, identifiers) {
        Ok(()) => Some(Opening {
            identifiers,
            marks,
            begun: Begun {
                last,
                is_peer_doubted,
            },
        }),
        Err(_) => None,
    }
}

// Returns whether the peer's disk may have lost writes.
fn is_doubted(start: Start) -> bool {
    match start {
        Start::Marked {
            is_peer_doubted,
            ..
        } => is_peer_doubted,
        _ => true,
    }
}

// Returns the blocks that a session begins with as marked: those that are marked in memory of a primary that lived or, where the peer may have
// lost writes, all that the metadata has.
fn marks_of<F: StableFile>(
    alloc: Global,
    metadata: &mut Metadata<F>,
    in_memory: Option<Bitmap>,
    is_doubted: bool,
) -> Option<Bitmap> {
    match in_memory {
        Some(marks) if !is_doubted => Some(marks),
        _ => known_marks(alloc, metadata).ok(),
    }
}

// Has both files say what their disks are while a session goes on.
fn save<F: StableFile>(
    world: &World,
    local: &mut Metadata<F>,
    peer: &mut Metadata<F>,
    opening: OpeningIdentifiers,
) -> Result<(), MetadataFault> {
    local.save(&serving_identifiers(opening.own, true, world.local.boot, 0))?;
    peer.save(&serving_identifiers(
        opening.peer,
        !opening.is_peer_doubted,
        world.peer.boot,
        LOCAL_NODE,
    ))
}

// Returns what a server finds of such a file.
fn found<F: StableFile>(metadata: &Metadata<F>) -> Found {
    Found::Says(Saved {
        header: metadata.header(),
        identifiers: metadata.identifiers(),
        is_image_unchanged: true,
    })
}
