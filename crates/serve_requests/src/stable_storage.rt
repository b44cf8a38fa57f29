//! Stable storage of both images.
ghost use Rattle.std.specs.Prelude.{◌≡◌, ◌≤◌, vec_len, IfErr, IfOk, IfSome};
ghost use Rattle.image_store.specs.declared.sync_handle.Disk.TheVariants.{Local, Peer};
ghost use Rattle.nbd.specs.declared.errno.Errno.TheVariants.{InputOutput};
ghost use Rattle.serve_requests.specs.Extents.{AreExtents};
ghost use Rattle.serve_requests.specs.Stored.{IsLater};

use crate::done::Done;
use crate::last_round::LastRound;
use crate::status::extents_of;
use crate::stored::Stored;
use image_store::{Disk, PerDisk, SyncHandle, SyncedAll};
use nbd::{Errno, Extent, Request};
use recorded_file::SharedFile;
use std::alloc::Global;
use std::fs::File;
use std::io;
use std::sync::atomic::{AtomicBool, AtomicU64, Ordering};
use std::sync::{Mutex, Wait};

/// Both images, as they are synced to stable storage in rounds, which many requests share. The rounds are numbered as they
/// begin, from 1 on. A later round has waited for all that an earlier one waits for, so a sync does for each round up to the
/// last one that is ready as it starts.
///
/// The system reports a failed sync once, and then forgets the data that it could not store. So once a sync of the local image
/// has failed, each later one fails too. It stores all the same what can be stored. Once a sync of the peer's image has failed,
/// the mirror goes on without the peer.
///
/// Invariant: each handle is that of its own image.
#[derive(Drop)]
pub(crate) struct StableStorage {
    images: PerDisk<SyncHandle<File>>,
    // The last round that began.
    begun: AtomicU64,
    // The last round that was ready for its sync.
    ready: AtomicU64,
    // What the last sync that succeeded left. It changes while the lock of `failed` is held, and no thread holds its own lock for
    // longer than it takes to share it.
    stored: Mutex<Option<Stored>>,
    // Whether a sync of the peer's image has failed. It changes under the lock of `failed`.
    is_peer_failed: AtomicBool,
    // Whether the mirror goes on without the peer.
    is_alone: AtomicBool,
    // The reason of the first sync of each image that failed.
    failed: Mutex<PerDisk<Option<io::Error>>>,
    ghost local: { images.local.disk ≡ Local },
    ghost peer: { images.peer.disk ≡ Peer },
}

impl StableStorage {
    /// Creates the stable storage of two images that the handles `images` sync, with no failed sync.
    pub(crate) fn new(images: PerDisk<SharedFile<File>>) -> StableStorage {
        StableStorage {
            images: PerDisk {
                local: SyncHandle::of(images.local, Disk::Local),
                peer: SyncHandle::of(images.peer, Disk::Peer),
            },
            begun: AtomicU64::new(0),
            ready: AtomicU64::new(0),
            stored: Mutex::new(None),
            is_peer_failed: AtomicBool::new(false),
            is_alone: AtomicBool::new(false),
            failed: Mutex::new(PerDisk {
                local: None,
                peer: None,
            }),
        }
    }

    /// Returns the last round that has begun, now that these writes are complete.
    pub(crate) fn last_round_after(&self, done: Done) -> LastRound
        ensures { result.writes ≡ done.writes }
    {
        LastRound::after(done, &self.begun)
    }

    /// Begins a round, and returns its number.
    pub(crate) fn begin_round(&self) -> u64 {
        self.begun.fetch_add(1, Ordering::SeqCst).wrapping_add(1)
    }

    /// Returns what a sync left for a round after this one, `None` if none has succeeded.
    pub(crate) fn stored_after<R: Wait>(&self, rt: &R, round: u64) -> Option<Stored>
        ensures { IfSome result (IsLater round) }
    {
        let kept = self.stored.lock(rt);
        match kept.as_ref() {
            Some(stored) if stored.round() > round => Some(stored.share()),
            _ => None,
        }
    }

    /// Returns whether a sync of the peer's image has failed.
    pub(crate) fn is_peer_failed(&self) -> bool {
        self.is_peer_failed.load(Ordering::SeqCst)
    }

    /// Goes on without the peer, whose sync has failed: from now on a sync of the local image does.
    pub(crate) fn go_on_alone(&self) {
        self.is_alone.store(true, Ordering::SeqCst);
    }

    /// Returns whether the mirror goes on without the peer.
    pub(crate) fn is_alone(&self) -> bool {
        self.is_alone.load(Ordering::SeqCst)
    }

    /// Syncs the images for the round `round`, which is ready, unless a sync for a round after `last` succeeds meanwhile. A peer's
    /// image whose sync has failed is left out: nothing new is written to it, and a disk that fails takes its time. One sync at a
    /// time, so that none succeeds beside one that fails.
    ///
    /// Returns what the sync left, for a round after `last`. Where it is of the local image alone, other requests get it once the
    /// mirror goes on without the peer, and not before. `InputOutput` if the local image is not on stable storage.
    pub(crate) fn sync<R: Wait>(&self, rt: &R, last: u64, round: u64) -> Result<Stored, Errno>
        ensures later { IfOk result (IsLater last) }
        ensures refused { IfErr result (λ e. e ≡ InputOutput) }
    {
        self.ready.fetch_max(round, Ordering::SeqCst);
        let mut failed = self.failed.lock(rt);
        if let Some(stored) = self.stored_after(rt, last) {
            return Ok(stored);
        }
        let ready = self.ready.load(Ordering::SeqCst);
        let local = sync_unfailed(&self.images.local, ready, &mut failed.local);
        let peer = self.sync_peer(ready, &mut failed.peer);
        if failed.peer.is_some() {
            self.is_peer_failed.store(true, Ordering::SeqCst);
        }
        let Some(local) = local else {
            return Err(Errno::InputOutput);
        };
        // A round that begins has a higher number than each that began before, so this refuses nothing.
        if ready <= last {
            return Err(Errno::InputOutput);
        }
        let stored = Stored::of(local, peer);
        if !stored.is_alone() || self.is_alone() {
            *self.stored.lock(rt) = Some(stored.share());
        }
        Ok(stored)
    }

    // Syncs the peer's image for the round `round`, unless a sync of it has failed. Returns what the sync left, and keeps the reason
    // if it fails.
    fn sync_peer(&self, round: u64, failed: &mut Option<io::Error>) -> Option<SyncedAll>
        ensures disk { IfSome result (λ synced. synced.disk ≡ Peer) }
        ensures round { IfSome result (λ synced. synced.round ≡ round) }
    {
        if failed.is_some() {
            return None;
        }
        sync_unfailed(&self.images.peer, round, failed)
    }

    /// Returns what the range of a BLOCK_STATUS is: `extents_of`.
    pub(crate) fn extents_of(&self, alloc: Global, request: &Request) -> Result<Vec<Extent>, Errno>
        ensures are { IfOk result (λ extents. AreExtents request.now extents.items) }
        ensures few { IfOk result (λ extents. vec_len extents ≤ 1024) }
    {
        extents_of(alloc, &self.images, request)
    }

    /// Syncs both images, whatever has failed. Returns for each why its first sync failed, now or before.
    pub(crate) fn sync_both<R: Wait>(&self, rt: &R) -> PerDisk<Option<io::Error>> {
        let mut failed = self.failed.lock(rt);
        let ready = self.ready.load(Ordering::SeqCst);
        failed.local = failed.local.or(self.images.local.sync(ready).err());
        failed.peer = failed.peer.or(self.images.peer.sync(ready).err());
        PerDisk {
            local: failed.local,
            peer: failed.peer,
        }
    }
}

// Syncs an image for the round `round`, whatever has failed. Returns what the sync left, unless it or an earlier one failed, and
// keeps the reason of the first that did.
fn sync_unfailed(
    image: &SyncHandle<File>,
    round: u64,
    failed: &mut Option<io::Error>,
) -> Option<SyncedAll>
    ensures disk { IfSome result (λ synced. synced.disk ≡ image.now.disk) }
    ensures round { IfSome result (λ synced. synced.round ≡ round) }
{
    match image.sync(round) {
        Ok(synced) => {
            if failed.is_some() {
                return None;
            }
            Some(synced)
        }
        Err(error) => {
            *failed = failed.or(Some(error));
            None
        }
    }
}
