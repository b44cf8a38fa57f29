//! The disks of both nodes.
use blocks::Store;
use std::marker::Model;

/// The disks of both nodes.
#[derive(Drop)]
pub struct Disks<D: Store> {
    /// The primary's.
    pub local: D,
    /// The secondary's.
    pub peer: D,
}

impl<D: Store> Model for Disks<D> {
    ghost use Rattle.disk_pair.specs.Disks.{DisksState};

    ghost Value = { DisksState };

    ghost view = { λ d. record {
      local = D.Store.contents d.local;
      peer = D.Store.contents d.peer;
      local_faithful = D.Store.faithful d.local;
      peer_faithful = D.Store.faithful d.peer;
      local_faults = D.Store.faults d.local;
      peer_faults = D.Store.faults d.peer;
    } };
}
