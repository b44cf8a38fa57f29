//! The local outcome of a write.

/// What the local disk did with a write.
#[derive(Clone, Copy, Debug, PartialEq, Eq)]
pub enum Local {
    /// Nothing yet.
    Waiting,
    /// It has all of it.
    OnDisk,
    /// It failed.
    Failed,
}
