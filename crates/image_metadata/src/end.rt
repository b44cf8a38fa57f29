//! What the metadata of an image says while a server uses it, and after a clean end.
ghost use Rattle.std.specs.Prelude.{◌≡◌, None, Some, OnOk};

use bitmap::Bitmap;
use blocks::Tuple;
use kept_nodes::record_marks;
use metadata::{BootId, CleanEnd, Identifiers, Metadata, MetadataFault, StableFile};

/// Returns what the metadata of an image says while a server of this system uses it: there is no clean end. `secondary_of` is the node
/// whose secondary it is, 0 for the primary's.
pub fn serving_identifiers(
    tuple: Tuple,
    is_consistent: bool,
    boot: BootId,
    secondary_of: u64,
) -> Identifiers
    ensures tuple { result.tuple ≡ tuple }
    ensures consistent { result.is_consistent ≡ is_consistent }
    ensures open { result.clean_end ≡ None }
{
    Identifiers {
        tuple,
        is_primary: secondary_of == 0,
        is_consistent,
        boot,
        secondary_of,
        clean_end: None,
    }
}

/// Has the metadata of the local image say that just these blocks are marked, and that its server ended cleanly, which left the image
/// so. The image is on stable storage, and nobody writes to it any more. `OtherBlocks` if the marks are of a device of another size.
pub fn close_local<F: StableFile>(
    metadata: &mut Metadata<F>,
    marks: &Bitmap,
    image: CleanEnd,
) -> Result<(), MetadataFault>
    ensures ended { OnOk result (metadata.new.identifiers ≡ record metadata.old.identifiers { clean_end = Some image }) }
{
    if marks.len() != metadata.header().blocks {
        return Err(MetadataFault::OtherBlocks);
    }
    record_marks(metadata, marks)?;
    close_peer(metadata, image)
}

/// Has the metadata of an image say that its server ended cleanly, which left the image so.
pub fn close_peer<F: StableFile>(
    metadata: &mut Metadata<F>,
    image: CleanEnd,
) -> Result<(), MetadataFault>
    ensures ended { OnOk result (metadata.new.identifiers ≡ record metadata.old.identifiers { clean_end = Some image }) }
{
    if metadata.is_broken() {
        return Err(MetadataFault::Broken);
    }
    let saved = metadata.identifiers();
    metadata.save(&Identifiers {
        clean_end: Some(image),
        ..saved
    })
}
