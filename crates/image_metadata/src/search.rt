//! What a server finds of an image's metadata.
ghost use Rattle.std.specs.Prelude.{◌≡◌, false, IfOk};

use crate::change::is_unchanged;
use crate::counted_file::CountedFile;
use blocks::MAX_DEVICE_BLOCKS;
use metadata::{
    CleanEnd, Header, Identifiers, Metadata, MetadataFault, MetadataFile, OpeningBytes, RawFile,
};
use std::alloc::Global;

/// The metadata file of an image.
pub type ImageFile<X> = MetadataFile<CountedFile, X>;

/// What the metadata of an image says.
#[derive(Clone, Copy, Debug, PartialEq, Eq)]
pub struct Saved {
    /// What was written once.
    pub header: Header,
    /// The identifiers that were saved last.
    pub identifiers: Identifiers,
    /// Whether the image is as it was at a clean end, or there was none.
    pub is_image_unchanged: bool,
}

/// What a server finds of an image's metadata.
#[derive(Clone, Copy, Debug, PartialEq, Eq)]
pub enum Found {
    /// The file is empty: it was made just now.
    Missing,
    /// The file is damaged, or of a device of another size.
    Unusable(MetadataFault),
    /// The file is whole.
    Says(Saved),
}

/// A metadata file that a server has opened.
#[derive(Drop)]
pub enum FoundFile<X: OpeningBytes> {
    /// The file is whole.
    Whole(Metadata<ImageFile<X>>),
    /// The file has to be made anew.
    Empty(CountedFile),
}

/// Reads a metadata file for an image of `blocks` blocks, which is `image` now. Returns what is found, and the file.
pub fn find<X: OpeningBytes>(
    alloc: Global,
    file: CountedFile,
    blocks: u64,
    image: &CleanEnd,
) -> (Found, FoundFile<X>) {
    if is_empty(&file) {
        return (Found::Missing, FoundFile::Empty(file));
    }
    match metadata::open(
        alloc,
        MetadataFile::<CountedFile, X>::over(file),
        Some(blocks),
    ) {
        Ok(metadata) => {
            let saved = Saved {
                header: metadata.header(),
                identifiers: metadata.identifiers(),
                is_image_unchanged: is_as_left(&metadata.identifiers(), image),
            };
            (Found::Says(saved), FoundFile::Whole(metadata))
        }
        Err((fault, file)) => (Found::Unusable(fault), FoundFile::Empty(file.into_raw())),
    }
}

// Whether the file has no byte. One that cannot be measured counts as one that has some: reading it tells why.
fn is_empty(file: &CountedFile) -> bool {
    match file.file.metadata() {
        Ok(found) => found.len() == 0,
        Err(_) => false,
    }
}

// Whether the image is as a clean end left it, if there was one.
fn is_as_left(identifiers: &Identifiers, image: &CleanEnd) -> bool {
    match &identifiers.clean_end {
        Some(then) => is_unchanged(then, image),
        None => true,
    }
}

/// Empties the file, and creates metadata in it with no extent entered and no block marked.
///
/// `OtherBlocks` if no device has that many blocks, `NoMemory` if there is none for the entries, `File` if the file cannot be written.
pub fn create_anew<X: OpeningBytes>(
    alloc: Global,
    mut file: CountedFile,
    header: Header,
    identifiers: &Identifiers,
) -> Result<Metadata<ImageFile<X>>, MetadataFault>
    ensures whole { IfOk result (λ m. m.is_broken ≡ false) }
    ensures memory { IfOk result (λ m. (m.header ≡ header) × (m.identifiers ≡ identifiers.now)) }
{
    if header.blocks == 0 || header.blocks > u64::from(MAX_DEVICE_BLOCKS) {
        return Err(MetadataFault::OtherBlocks);
    }
    if let Err(error) = file.set_len(0) {
        drop(error);
        return Err(MetadataFault::File(metadata::FileFault::Failed));
    }
    match metadata::create(
        alloc,
        MetadataFile::<CountedFile, X>::over(file),
        header,
        identifiers,
    ) {
        Ok(metadata) => Ok(metadata),
        Err((fault, _)) => Err(fault),
    }
}
