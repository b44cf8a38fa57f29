//! The parts from which the session of a run starts.
ghost use Rattle.std.specs.Prelude.{◌≡◌, ◌<◌, slice_get, IfOk};
ghost use Rattle.blocks.specs.Contents.{blocks_of};
ghost use Rattle.blocks.specs.SettingsRange.{standard};
ghost use Rattle.session_run.specs.Outcome.{IsOpening};
ghost use Rattle.settlement.specs.Settled.{WasHonest};
ghost use Rattle.volume.specs.Opening.{opening_of};

use bitmap::Bitmap;
use blocks::{ConnectionWords, MemStore, Refusal, Tuple};
use image_store::PerDisk;
use program_values::RunOptions;
use std::alloc::Global;
use volume::SessionStart;

/// The disks of both nodes.
pub(crate) type Disks = PerDisk<MemStore>;

/// Returns what a session of these options over these images starts from, with the disks that hold the images: no block
/// is marked, and if the images differ, the peer's disk has the identifiers of an unknown disk (0,0,0,0). `BadSetting`
/// (15) if a setting is out of its range, else `NoMemory` (7) if there is no memory for the marks, else `BadSetting`
/// (15) if an image is not 1 to 262,144 whole blocks.
pub(crate) fn parts(
    alloc: Global,
    options: &RunOptions,
    images: PerDisk<Vec<u8>>,
) -> Result<(SessionStart, Disks), Refusal>
    ensures some_blocks { IfOk result (λ _. 0 < options.now.blocks) }
    ensures opens { IfOk result (λ made. IsOpening (record standard { protocol = options.now.protocol; blocks = options.now.blocks }) images.local.items images.peer.items
        (opening_of made.0 (slice_get made.1.local) (slice_get made.1.peer))) }
    ensures honest { IfOk result (λ made. WasHonest (opening_of made.0 (slice_get made.1.local) (slice_get made.1.peer))) }
    ensures words { IfOk result (λ made. (made.0.words.sync ≡ 2) × (made.0.words.loss ≡ 3)) }
    ensures disks { IfOk result (λ made. (made.1.local ≡ blocks_of 4096 images.local.items) × (made.1.peer ≡ blocks_of 4096 images.peer.items)) }
{
    let settings = options.settings();
    settings.check()?;
    let first = Tuple::new(1, 0, 0, 0);
    let unknown = Tuple::new(0, 0, 0, 0);
    let parts = SessionStart {
        settings,
        own: first,
        peer: if images.local == images.peer {
            first
        } else {
            unknown
        },
        marks: Bitmap::unmarked(alloc, u64::from(settings.blocks))?,
        words: ConnectionWords { sync: 2, loss: 3 },
        is_cut: false,
    };
    let local = MemStore::from_image(images.local)?;
    let peer = MemStore::from_image(images.peer)?;
    Ok((parts, PerDisk { local, peer }))
}
