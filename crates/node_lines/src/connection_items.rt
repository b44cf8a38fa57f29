//! The items of a connection's stream.

/// How many items of a connection's stream a primary has sent, or a secondary has taken.
#[derive(Clone, Copy, Debug)]
pub struct ConnectionItems {
    /// The connection's number, the first being 1.
    pub connection: u32,
    pub items: u32,
}
