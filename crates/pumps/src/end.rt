//! The end of a pump.

/// Why a pump ended.
#[derive(Clone, Copy, Debug, PartialEq, Eq)]
pub enum PumpEnd {
    /// It was asked to stop.
    Stopped,
    /// The reader is at the end of its input.
    EndOfInput,
    /// The reader or the writer failed.
    Failed,
}
