//! The state of a connection.
use crate::outbox::Outbox;
use handshakes::Handshake;
use resync::Resync;

/// An open connection: its words for a resync and for its loss, its handshake, the unsent items of its stream, and
/// its resync.
#[derive(Drop)]
pub(crate) struct Connection {
    pub(crate) sync: u64,
    pub(crate) loss: u64,
    pub(crate) handshake: Handshake,
    pub(crate) outbox: Outbox,
    pub(crate) resync: Resync,
}
