//! The state of a pair, as its queries return it, and its end.
use crate::pairs::rows::{BLOCKS, Held};
use blocks::{BLOCK_BYTES, Block, Refusal, Tuple};
use pair::{Pair, Side};
use secondary_core::Usage;
use std::process::Abort;

/// All that a pair of eight blocks returns without taking memory. A disk that fails its next read shows here, since
/// each block of both is read.
#[derive(Clone, Copy, Debug, PartialEq, Eq)]
pub(crate) struct Seen {
    disks: Disks,
    primary: PrimarySeen,
    secondary: SecondarySeen,
}

/// Both disks with their identifiers, and the marks.
#[derive(Clone, Copy, Debug, PartialEq, Eq)]
struct Disks {
    own: Tuple,
    peer: Tuple,
    blocks: [BlockSeen; BLOCKS],
}

/// One block of both disks.
#[derive(Clone, Copy, Debug, PartialEq, Eq)]
struct BlockSeen {
    is_marked: bool,
    differs: bool,
    /// The byte that fills it; none if its bytes differ.
    local_filled: Option<u8>,
    peer_filled: Option<u8>,
}

/// What the primary's queries return.
#[derive(Clone, Copy, Debug, PartialEq, Eq)]
struct PrimarySeen {
    peer: Option<Tuple>,
    connections: u32,
    is_open: bool,
    is_established: bool,
    is_resync: bool,
    accepted: u64,
    marks: u32,
    incomplete: u32,
    unanswered: u32,
    open_epochs: u64,
    first_unreleased: Option<u64>,
    next_local: Option<u64>,
    items_sent: u32,
    /// How many frames went into the link, the hello's among them.
    frames_sent: Option<u64>,
}

/// What the secondary's queries return.
#[derive(Clone, Copy, Debug, PartialEq, Eq)]
struct SecondarySeen {
    next: Result<u32, Refusal>,
    connection: u32,
    is_drained: bool,
    is_consistent: bool,
    is_open: bool,
    is_hello_done: bool,
    items_taken: u32,
    items_applied: u32,
    frames_sent: Option<u64>,
    usage: Usage,
}

impl Seen {
    pub(crate) fn of(pair: &mut Pair) -> Seen {
        Seen {
            disks: Disks::of(pair),
            primary: PrimarySeen::of(pair),
            secondary: SecondarySeen::of(pair),
        }
    }
}

impl Disks {
    fn of(pair: &mut Pair) -> Disks {
        let (own, peer) = pair.tuples();
        let mut blocks = [BlockSeen::UNREAD; BLOCKS];
        for index in 0..BLOCKS {
            blocks[index] = BlockSeen::of(pair, Block(index as u64));
        }
        Disks { own, peer, blocks }
    }
}

impl BlockSeen {
    /// A block before it is read.
    const UNREAD: BlockSeen = BlockSeen {
        is_marked: false,
        differs: false,
        local_filled: None,
        peer_filled: None,
    };

    fn of(pair: &mut Pair, block: Block) -> BlockSeen {
        BlockSeen {
            is_marked: pair.is_marked(block),
            differs: pair.differs(block),
            local_filled: filled(pair, Side::Primary, block),
            peer_filled: filled(pair, Side::Secondary, block),
        }
    }

    /// Returns a block that is marked or not, and that these bytes fill.
    fn wanted(is_marked: bool, local: u8, peer: u8) -> BlockSeen {
        BlockSeen {
            is_marked,
            differs: local != peer,
            local_filled: Some(local),
            peer_filled: Some(peer),
        }
    }
}

/// Returns the byte that fills a block of a node's disk.
fn filled(pair: &mut Pair, side: Side, block: Block) -> Option<u8> {
    let mut buffer = [0u8; BLOCK_BYTES];
    pair.read(side, block, &mut buffer).ok()?;
    let first = buffer[0];
    if buffer.iter().all(|byte| *byte == first) {
        Some(first)
    } else {
        None
    }
}

impl PrimarySeen {
    fn of(pair: &Pair) -> PrimarySeen {
        let primary = pair.primary();
        PrimarySeen {
            peer: primary.peer(),
            connections: primary.connection_number(),
            is_open: primary.is_open(),
            is_established: primary.is_established(),
            is_resync: primary.is_resync(),
            accepted: primary.accepted(),
            marks: primary.marks(),
            incomplete: primary.incomplete(),
            unanswered: primary.unanswered(),
            open_epochs: primary.open_epochs(),
            first_unreleased: primary.first_unreleased(),
            next_local: primary.next_local(),
            items_sent: primary.items_sent(),
            frames_sent: primary.outgoing().map(|end| end.pushed()),
        }
    }
}

impl SecondarySeen {
    fn of(pair: &Pair) -> SecondarySeen {
        let secondary = pair.secondary();
        SecondarySeen {
            next: secondary.next(),
            connection: secondary.connection_number(),
            is_drained: secondary.is_drained(),
            is_consistent: secondary.is_consistent(),
            is_open: secondary.is_open(),
            is_hello_done: secondary.is_hello_done(),
            items_taken: secondary.items_taken(),
            items_applied: secondary.items_applied(),
            frames_sent: secondary.outgoing().map(|end| end.pushed()),
            usage: secondary.usage(),
        }
    }
}

/// Checks the identifiers, the marks and both disks.
pub(crate) fn holds(rt: &impl Abort, pair: &mut Pair, held: &Held) {
    let disks = Disks::of(pair);
    assert_eq!(rt;
        (words(disks.own), words(disks.peer)),
        (held.own, held.peer)
    );
    for index in 0..BLOCKS {
        let is_marked = held.marks.contains(&(index as u64));
        let wanted = BlockSeen::wanted(
            is_marked,
            held.local_filled[index],
            held.peer_filled[index],
        );
        assert_eq!(rt; disks.blocks[index], wanted, "block {index}");
    }
}

/// Returns a tuple in the order in which it is printed.
fn words(tuple: Tuple) -> [u64; 4] {
    [
        tuple.current,
        tuple.bitmap,
        tuple.first_historical,
        tuple.second_historical,
    ]
}

/// Drops a pair. The code that drops its parts is put, and proved, wherever a pair is dropped: so that is only here.
pub(crate) fn let_go(_pair: Pair) {}
