//! What a server begins with, as far as it is known before it listens.
use crate::fault::ServeFault;
use crate::image_files::FoundFiles;
use bitmap::Bitmap;
use blocks::Tuple;
use disk_pair::mebibytes;
use image_metadata::{
    BootId, CountedFile, Found, FoundFile, Header, ImageFile, LastEnd, Metadata, MetadataFault,
    OpeningBytes, Start, UNKNOWN, boot_id, create_anew, judge, opening_identifiers,
    serving_identifiers,
};
use image_store::PerDisk;
use kept_nodes::known_marks;
use program_values::ServeOptions;
use serve_page::StartedAfter;
use std::alloc::Global;
use std::io::Write;
use std::random::RandomSource;
use std::rt::Files;
use volume::PairMetadata;

/// The metadata of both images.
pub type ImagesMetadata<M, N> = PairMetadata<ImageFile<M>, ImageFile<N>>;

/// Numbers that no other mirror has, from the system's random ones.
#[derive(Clone, Copy, Debug, PartialEq, Eq)]
pub struct FreshNumbers {
    /// The id of a pair that is made.
    pub pair: u64,
    /// The ids of its two nodes.
    pub local_node: u64,
    pub peer_node: u64,
    /// An identifier of data, the word under which a primary has lost its peer before this start, and the first word of the server's
    /// connections.
    pub identifier: u64,
    pub lost_word: u64,
    pub first_word: u64,
    /// The id of the system, or a number that no system has.
    pub boot: BootId,
}

/// What a server begins with.
#[derive(Drop)]
pub enum Beginning<M: OpeningBytes, N: OpeningBytes> {
    /// It keeps no metadata.
    Unkept,
    /// Neither image has metadata yet: these are the files for it.
    First {
        local: CountedFile,
        peer: CountedFile,
    },
    /// What the metadata of both images says.
    Known(Known<M, N>),
}

/// What the metadata of both images says.
#[derive(Drop)]
pub struct Known<M: OpeningBytes, N: OpeningBytes> {
    pub metadata: ImagesMetadata<M, N>,
    pub own: Tuple,
    pub peer: Tuple,
    pub marks: Bitmap,
    pub after: StartedAfter,
}

impl<M: OpeningBytes, N: OpeningBytes> Beginning<M, N> {
    /// Returns what it follows.
    pub fn after(&self) -> StartedAfter {
        match self {
            Beginning::Unkept => StartedAfter::NoMetadata,
            Beginning::First { .. } => StartedAfter::Nothing,
            Beginning::Known(known) => known.after,
        }
    }
}

/// Returns numbers that no other mirror has. An error if the system gives no random bytes.
pub fn fresh_numbers<'a, H: Files + AllocGlobal + RandomSource>(
    rt: &H,
) -> Result<FreshNumbers, ServeFault<'a>> {
    let mut bytes = [0u8; 64];
    if let Err(error) = rt.fill_bytes(&mut bytes) {
        return Err(ServeFault::NoRandomBytes(error));
    }
    let boot = match boot_id(rt) {
        Some(boot) => boot,
        None => BootId {
            high: word(&bytes, 40),
            low: word(&bytes, 48),
        },
    };
    Ok(FreshNumbers {
        pair: word(&bytes, 0) | 1,
        local_node: word(&bytes, 8) | 1,
        peer_node: word(&bytes, 16) | 1,
        identifier: word(&bytes, 24) | 1,
        lost_word: word(&bytes, 56) | 1,
        // Far from the end, so that a server has words for as long as it lives.
        first_word: (word(&bytes, 32) >> 1) | 2,
        boot,
    })
}

// Returns the word that begins at this byte.
fn word(bytes: &[u8; 64], first: usize) -> u64 {
    let mut word = 0u64;
    for byte in bytes.iter().skip(first).take(8) {
        word = word << 8 | u64::from(*byte);
    }
    word
}

/// Returns what a server begins with over these metadata files, and says on `err` what it will copy.
pub fn begin<'a, M: OpeningBytes, N: OpeningBytes, E: Write>(
    alloc: Global,
    options: &ServeOptions<'a>,
    blocks: u32,
    files: Option<FoundFiles<M, N>>,
    numbers: FreshNumbers,
    err: &mut E,
) -> Result<Beginning<M, N>, ServeFault<'a>> {
    let Some(files) = files else {
        return Ok(Beginning::Unkept);
    };
    let FoundFiles { found, local, peer } = files;
    let start = judge(&found.local, &found.peer, numbers.boot);
    match (start, local, peer) {
        (Start::First, FoundFile::Empty(local), FoundFile::Empty(peer)) => {
            Ok(Beginning::First { local, peer })
        }
        (Start::WrongWayRound, _, _) => {
            Err(ServeFault::WrongWayRound(options.local, options.peer))
        }
        (start, local, peer) => match take_up(alloc, blocks, start, local, peer, numbers) {
            Ok(known) => {
                tell(options, start, known.marks.count(), known.peer, err);
                Ok(Beginning::Known(known))
            }
            Err(fault) => Err(ServeFault::UnmadeMetadata(options.local, fault)),
        },
    }
}

// Returns the file of the peer's metadata, which has to be made anew if it is of another pair.
fn of_pair<N: OpeningBytes>(file: FoundFile<N>, pair: u64) -> FoundFile<N> {
    match file {
        FoundFile::Whole(metadata) => {
            if metadata.header().pair == pair {
                return FoundFile::Whole(metadata);
            }
            FoundFile::Empty(metadata.into_file().into_raw())
        }
        FoundFile::Empty(file) => FoundFile::Empty(file),
    }
}

// Takes up what the metadata of both images says, and makes anew what cannot be used.
fn take_up<M: OpeningBytes, N: OpeningBytes>(
    alloc: Global,
    blocks: u32,
    start: Start,
    local: FoundFile<M>,
    peer: FoundFile<N>,
    numbers: FreshNumbers,
) -> Result<Known<M, N>, MetadataFault> {
    let mut local = whole(alloc, local, local_header(blocks, &numbers), &numbers)?;
    let marks = known_marks(alloc, &mut local)?;
    let header = Header {
        pair: local.header().pair,
        node: numbers.peer_node,
        blocks: u64::from(blocks),
    };
    let peer = of_pair(peer, header.pair);
    let mut peer = whole(alloc, peer, header, &numbers)?;
    let opening = opening_identifiers(
        start,
        local.identifiers().tuple,
        peer.identifiers().tuple,
        marks.count() > 0,
        numbers.lost_word,
    );
    let secondary_of = local.header().node;
    local.save(&serving_identifiers(opening.own, true, numbers.boot, 0))?;
    peer.save(&serving_identifiers(
        opening.peer,
        !opening.is_peer_doubted,
        numbers.boot,
        secondary_of,
    ))?;
    Ok(Known {
        metadata: PairMetadata {
            primary: Some(local),
            secondary: Some(peer),
            is_peer_doubted: opening.is_peer_doubted,
        },
        own: opening.own,
        peer: opening.peer,
        marks,
        after: started_after(start, opening.peer),
    })
}

// Returns what a server starts after, whose secondary begins with this tuple.
fn started_after(start: Start, peer: Tuple) -> StartedAfter {
    match start {
        Start::Marked { last, .. } if peer != UNKNOWN => match last {
            LastEnd::Clean => StartedAfter::CleanEnd,
            LastEnd::Killed => StartedAfter::Kill,
            LastEnd::PowerLost => StartedAfter::PowerLoss,
        },
        _ => StartedAfter::Unknown,
    }
}

// Returns the metadata of a file, made anew if it cannot be used.
fn whole<X: OpeningBytes>(
    alloc: Global,
    file: FoundFile<X>,
    header: Header,
    numbers: &FreshNumbers,
) -> Result<Metadata<ImageFile<X>>, MetadataFault> {
    match file {
        FoundFile::Whole(metadata) => Ok(metadata),
        FoundFile::Empty(file) => {
            let tuple = Tuple::new(numbers.identifier, 0, 0, 0);
            create_anew(
                alloc,
                file,
                header,
                &serving_identifiers(tuple, true, numbers.boot, 0),
            )
        }
    }
}

/// Returns the header of the local image's metadata, in a pair that is made.
pub fn local_header(blocks: u32, numbers: &FreshNumbers) -> Header {
    Header {
        blocks: u64::from(blocks),
        pair: numbers.pair,
        node: numbers.local_node,
    }
}

/// Says what is copied: `count` blocks are marked or active, and the peer's disk begins with these identifiers.
pub fn tell<E: Write>(
    options: &ServeOptions<'_>,
    start: Start,
    count: u32,
    peer_tuple: Tuple,
    err: &mut E,
) {
    let (local, peer) = (options.local, options.peer);
    let _ = match start {
        Start::Marked { last, .. } if peer_tuple != UNKNOWN => writeln!(
            err,
            "the last server {last}: {count} blocks ({} MiB) of {local} are copied over {peer}",
            mebibytes(count)
        ),
        Start::Whole(reason) => writeln!(err, "all of {local} is copied over {peer}: {reason}"),
        _ => writeln!(
            err,
            "all of {local} is copied over {peer}: it has no identifier by which its blocks are known"
        ),
    };
}
