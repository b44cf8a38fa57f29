//! A handle that makes an image durable, and what a sync of it leaves.
ghost use Rattle.std.specs.Prelude.{◌≡◌, ◌<◌, ◌^◌, ◌-◌, IfOk};

use recorded_file::{SharedFile, Stretch};
use std::fs::{File, OpenFile};
use std::io;
use std::marker::Model;

/// One of a mirror's two disks.
#[derive(Clone, Copy, Debug, PartialEq, Eq)]
pub enum Disk {
    /// The local one, the primary's.
    Local,
    /// The peer's.
    Peer,
}

/// A second handle on the image of one of the two disks, which makes it durable while another thread has the store. Threads may share
/// it if they may share the file's type.
#[derive(Drop)]
pub struct SyncHandle<F> {
    file: SharedFile<F>,
    disk: Disk,
}

impl<F> Model for SyncHandle<F> {
    ghost use Rattle.image_store.specs.Syncs.{SyncHandleState};

    ghost Value = { SyncHandleState };

    ghost view = { λ h. record { path = h.file.path; disk = h.disk } };
}

/// What a sync of an image leaves: the medium had each write that the store had finished before the sync began. `SyncHandle::sync`
/// alone makes one, and it cannot be copied, so whoever has one had that image synced.
#[derive(Debug, Drop)]
pub struct SyncedAll {
    disk: Disk,
    round: u64,
}

impl Model for SyncedAll {
    ghost use Rattle.image_store.specs.Syncs.{SyncedState};

    ghost Value = { SyncedState };

    ghost view = { λ s. record { disk = s.disk; round = s.round } };
}

impl SyncedAll {
    /// Returns the number that the caller of the sync had for it.
    pub fn round(&self) -> u64
        ensures { result ≡ self.now.round }
    {
        self.round
    }
}

impl<F> SyncHandle<F> {
    /// Takes the handle on the image of `disk`. Whoever syncs both images names each of the two so, once.
    pub fn of(file: SharedFile<F>, disk: Disk) -> SyncHandle<F>
        ensures { result ≡ record { path = file.path; disk = disk } }
    {
        SyncHandle { file, disk }
    }
}

impl<F: OpenFile> SyncHandle<F> {
    /// Returns once the medium has each write that the store had finished before this call began, or with the system's
    /// error. Promises nothing about a write that is under way meanwhile. `round` is the caller's number for the sync, which it had
    /// before.
    pub fn sync(&self, round: u64) -> io::Result<SyncedAll>
        ensures disk { IfOk result (λ synced. synced.disk ≡ self.now.disk) }
        ensures round { IfOk result (λ synced. synced.round ≡ round) }
    {
        self.file.sync()?;
        Ok(SyncedAll {
            disk: self.disk,
            round,
        })
    }
}

impl SyncHandle<File> {
    /// Returns what the image has at this byte, data or none, and up to where. Promises nothing about a write that is under way meanwhile.
    pub fn stretch_at(&self, offset: u64) -> Stretch
        requires { offset < 2 ^ 64 - 1 }
        ensures { offset < result.end }
    {
        self.file.stretch_at(offset)
    }
}
