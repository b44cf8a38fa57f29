//! The start of a server's first session.
ghost use Rattle.std.specs.Prelude.{ℕ, ◌≡◌, false, replicate, IfOk};
ghost use Rattle.bitmap.specs.Marks.{marked};
ghost use Rattle.blocks.specs.SettingsRange.{standard};
ghost use Rattle.served_images.specs.Sessions.{IsFirst, IsKeptStart, IsMarkedStart, IsStart};

use crate::beginning::{Beginning, FreshNumbers, ImagesMetadata, Known, local_header};
use crate::first_identifiers::first_identifiers;
use crate::session_end::SessionEnd;
use crate::totals::Totals;
use bitmap::Bitmap;
use blocks::{ConnectionWords, MAX_DEVICE_BLOCKS, Protocol, Refusal, Settings, Store, Tuple};
use disk_pair::{Disks, first_marks, is_peer_known};
use image_metadata::{
    CountedFile, Header, MetadataFault, OpeningBytes, UNKNOWN, create_anew, serving_identifiers,
};
use kept_nodes::record_marks;
use program_values::FirstStart;
use std::alloc::Global;
use std::io::Write;
use volume::{PairMetadata, SessionStart};

/// Fresh words for a first session.
#[derive(Clone, Copy, Debug, PartialEq, Eq)]
pub struct FirstWords {
    /// Those of its first connection.
    pub connection: ConnectionWords,
    /// An identifier of the local disk, if the images differ.
    pub loss: u64,
}

/// Returns the settings of a server's sessions: these, and else the standard ones.
pub fn settings_of(protocol: Protocol, blocks: u32) -> Settings
    ensures { result ≡ record standard { protocol = protocol; blocks = blocks } }
{
    Settings {
        protocol,
        blocks,
        ..Settings::STANDARD
    }
}

/// Returns what the first session over these disks starts from: what the metadata of both images says, or where there is none, what
/// `how` says. `ReadFault` (14) if a disk fails a read of a comparison, `LocalFault` (8) if metadata cannot be made.
pub fn first_start<D: Store + Drop, M: OpeningBytes, N: OpeningBytes, E: Write>(
    alloc: Global,
    settings: Settings,
    words: FirstWords,
    how: FirstStart,
    beginning: Beginning<M, N>,
    numbers: FreshNumbers,
    disks: Disks<D>,
    err: &mut E,
) -> Result<SessionEnd<D, M, N>, Refusal>
    ensures { IfOk result (IsStart settings how disks) }
{
    match beginning {
        Beginning::Unkept => start_unkept(alloc, settings, words, how, disks, err),
        Beginning::First { local, peer } => start_kept(
            alloc, settings, words, how, local, peer, numbers, disks, err,
        ),
        Beginning::Known(known) => start_known(settings, words, known, disks),
    }
}

// Returns what a session starts from over images whose metadata says this.
fn start_known<D: Store + Drop, M: OpeningBytes, N: OpeningBytes>(
    settings: Settings,
    words: FirstWords,
    known: Known<M, N>,
    disks: Disks<D>,
) -> Result<SessionEnd<D, M, N>, Refusal>
    ensures { IfOk result (IsKeptStart settings disks) }
{
    let Known {
        metadata,
        own,
        peer,
        marks,
        after: _,
    } = known;
    Ok(SessionEnd {
        disks,
        parts: parts_of(settings, words, own, peer, marks)?,
        totals: Totals::NOTHING,
        metadata,
    })
}

// Returns what a session starts from over images that get metadata now: the blocks that differ are marked, or all is copied, or they
// are taken as alike.
fn start_kept<D: Store + Drop, M: OpeningBytes, N: OpeningBytes, E: Write>(
    alloc: Global,
    settings: Settings,
    words: FirstWords,
    how: FirstStart,
    local: CountedFile,
    peer: CountedFile,
    numbers: FreshNumbers,
    disks: Disks<D>,
    err: &mut E,
) -> Result<SessionEnd<D, M, N>, Refusal>
    ensures { IfOk result (IsMarkedStart settings how disks) }
{
    let mut disks = disks;
    tell_first(err);
    let marks = first_marks(alloc, settings.blocks, how, &mut disks, err)?;
    let count = marks.count();
    tell_differing(how, count, err);
    let (own, other) = first_identifiers(how, count > 0, numbers.identifier, words.loss);
    let Ok(metadata) = make_metadata::<M, N>(
        alloc,
        settings.blocks,
        local,
        peer,
        numbers,
        own,
        other,
        &marks,
    ) else {
        return Err(Refusal::LocalFault);
    };
    match parts_of(settings, words, own, other, marks) {
        Ok(parts) => Ok(SessionEnd {
            disks,
            parts,
            totals: Totals::NOTHING,
            metadata,
        }),
        Err(refusal) => Err(refusal),
    }
}

/// Says that both images get metadata.
pub fn tell_first<E: Write>(err: &mut E) {
    let _ = writeln!(err, "both images get metadata, since neither has any");
}

/// Says how many blocks a comparison found to differ, or what is done without one.
pub fn tell_differing<E: Write>(how: FirstStart, count: u32, err: &mut E) {
    let _ = match how {
        FirstStart::Compare => writeln!(
            err,
            "{count} blocks differ, and are copied from the local image over the peer's"
        ),
        FirstStart::Copy => writeln!(err, "all of the local image is copied over the peer's"),
        FirstStart::AssumeEqual => {
            writeln!(err, "the images are taken as alike, and nothing is copied")
        }
    };
}

// Makes the metadata of both images.
fn make_metadata<M: OpeningBytes, N: OpeningBytes>(
    alloc: Global,
    blocks: u32,
    local: CountedFile,
    peer: CountedFile,
    numbers: FreshNumbers,
    own: Tuple,
    peer_tuple: Tuple,
    marks: &Bitmap,
) -> Result<ImagesMetadata<M, N>, MetadataFault> {
    let header = local_header(blocks, &numbers);
    // The peer's comes first: alone it says nothing.
    let secondary = create_anew(
        alloc,
        peer,
        Header {
            node: numbers.peer_node,
            ..header
        },
        &serving_identifiers(peer_tuple, peer_tuple != UNKNOWN, numbers.boot, header.node),
    )?;
    let mut primary = create_anew(
        alloc,
        local,
        header,
        &serving_identifiers(own, true, numbers.boot, 0),
    )?;
    if marks.len() != primary.header().blocks {
        return Err(MetadataFault::OtherBlocks);
    }
    record_marks(&mut primary, marks)?;
    Ok(PairMetadata {
        primary: Some(primary),
        secondary: Some(secondary),
        is_peer_doubted: false,
    })
}

// Returns what a session starts from over disks of which nothing is known, and nothing is kept: no block is marked, and the peer's disk has
// the identifiers of an unknown one (0,0,0,0), so that all is copied, if a copy is asked for or a comparison finds a difference, which a
// line on `err` says.
fn start_unkept<D: Store + Drop, M: OpeningBytes, N: OpeningBytes, E: Write>(
    alloc: Global,
    settings: Settings,
    words: FirstWords,
    how: FirstStart,
    disks: Disks<D>,
    err: &mut E,
) -> Result<SessionEnd<D, M, N>, Refusal>
    ensures { IfOk result (IsFirst settings how disks) }
{
    let mut disks = disks;
    let first = Tuple::new(1, 0, 0, 0);
    let unknown = Tuple::new(0, 0, 0, 0);
    let is_known = is_peer_known(how, &mut disks, err)?;
    let peer = if is_known { first } else { unknown };
    match first_parts(alloc, settings, words, first, peer) {
        Ok(parts) => Ok(SessionEnd {
            disks,
            parts,
            totals: Totals::NOTHING,
            metadata: PairMetadata {
                primary: None,
                secondary: None,
                is_peer_doubted: false,
            },
        }),
        Err(refusal) => Err(refusal),
    }
}

// Returns the parts of the first session, over disks with these identifiers, with no block marked.
fn first_parts(
    alloc: Global,
    settings: Settings,
    words: FirstWords,
    own: Tuple,
    peer: Tuple,
) -> Result<SessionStart, Refusal>
    ensures settings { IfOk result (λ parts. parts.settings ≡ settings) }
    ensures identifiers { IfOk result (λ parts. (parts.own ≡ own) × (parts.peer ≡ peer)) }
    ensures marks { IfOk result (λ parts. (block : ℕ) → marked parts.marks block ≡ false) }
{
    let marks = unmarked_bitmap(alloc, settings.blocks)?;
    parts_of(settings, words, own, peer, marks)
}

// Returns the bitmap of the device, with no block marked. `BadSetting` (15) if no device is so large, `NoMemory` (7) if there is none.
fn unmarked_bitmap(alloc: Global, blocks: u32) -> Result<Bitmap, Refusal>
    ensures made { IfOk result (λ marks. marks ≡ replicate blocks false) }
{
    if blocks > MAX_DEVICE_BLOCKS {
        return Err(Refusal::BadSetting);
    }
    Bitmap::unmarked(alloc, u64::from(blocks))
}

// Returns the parts of a session, over disks with these identifiers and marks.
fn parts_of(
    settings: Settings,
    words: FirstWords,
    own: Tuple,
    peer: Tuple,
    marks: Bitmap,
) -> Result<SessionStart, Refusal>
    ensures settings { IfOk result (λ parts. parts.settings ≡ settings) }
    ensures identifiers { IfOk result (λ parts. (parts.own ≡ own) × (parts.peer ≡ peer)) }
    ensures marks { IfOk result (λ parts. parts.marks ≡ marks) }
{
    settings.check()?;
    Ok(SessionStart {
        settings,
        own,
        peer,
        marks,
        words: words.connection,
        is_cut: false,
    })
}
