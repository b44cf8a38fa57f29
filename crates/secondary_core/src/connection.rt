//! An open connection.

use crate::outbox::Outbox;
use handshakes::Handshake;

/// An open connection: its handshake, and the acknowledgements that are due on it.
#[derive(Drop)]
pub(crate) struct Connection {
    pub(crate) handshake: Handshake,
    pub(crate) outbox: Outbox,
}
