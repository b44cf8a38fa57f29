//! A stretch of a file.
ghost use Rattle.std.specs.Prelude.{◌≡◌, true, false};

/// What a file has from a byte on, as far as its file system tells it: data, or none, which reads as zeros.
#[derive(Clone, Copy, Debug, PartialEq, Eq)]
pub struct Stretch {
    /// Whether it has data.
    pub is_data: bool,
    /// The first byte after them.
    pub end: u64,
}

impl Stretch {
    /// Creates one of data up to a byte.
    pub(crate) fn data(end: u64) -> Stretch
        ensures { result ≡ record { is_data = true; end = end } }
    {
        Stretch { is_data: true, end }
    }

    /// Creates one without data up to a byte.
    pub(crate) fn hole(end: u64) -> Stretch
        ensures { result ≡ record { is_data = false; end = end } }
    {
        Stretch {
            is_data: false,
            end,
        }
    }
}
