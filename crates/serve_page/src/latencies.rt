//! How long the requests of clients took.
ghost use Rattle.std.specs.Prelude.{◌≡◌};
ghost use Rattle.serve_page.specs.Latencies.{bound_text, bucket_of};

/// The bounds up to which requests are counted, from 100 microseconds to 2.5 seconds.
pub const BOUNDS: usize = 14;

/// How long the requests of one command took.
#[derive(Clone, Copy, Debug)]
pub struct CommandLatency {
    /// For each bound how many requests took no longer.
    pub within: [u64; BOUNDS],
    /// How many requests there were.
    pub count: u64,
    /// The microseconds of all of them together.
    pub microseconds: u64,
}

impl CommandLatency {
    /// The latency of a command before its first request.
    pub const NONE: CommandLatency = CommandLatency {
        within: [0; BOUNDS],
        count: 0,
        microseconds: 0,
    };
}

/// How long the requests of each command took since the server began.
#[derive(Clone, Copy, Debug)]
pub struct Latencies {
    pub read: CommandLatency,
    pub write: CommandLatency,
    pub flush: CommandLatency,
    pub write_zeroes: CommandLatency,
}

impl Latencies {
    /// The latencies before the first request.
    pub const NONE: Latencies = Latencies {
        read: CommandLatency::NONE,
        write: CommandLatency::NONE,
        flush: CommandLatency::NONE,
        write_zeroes: CommandLatency::NONE,
    };
}

/// Returns the first bound, counted from 0, that a request of so many microseconds does not exceed, or `BOUNDS` if it exceeds all.
pub fn bucket_of(microseconds: u64) -> usize
    ensures { result ≡ bucket_of microseconds }
{
    match microseconds {
        0..=100 => 0,
        101..=250 => 1,
        251..=500 => 2,
        501..=1_000 => 3,
        1_001..=2_500 => 4,
        2_501..=5_000 => 5,
        5_001..=10_000 => 6,
        10_001..=25_000 => 7,
        25_001..=50_000 => 8,
        50_001..=100_000 => 9,
        100_001..=250_000 => 10,
        250_001..=500_000 => 11,
        500_001..=1_000_000 => 12,
        1_000_001..=2_500_000 => 13,
        _ => BOUNDS,
    }
}

// Returns a bound in seconds.
pub(crate) fn bound(index: usize) -> &'static str
    ensures { result.now ≡ bound_text index }
{
    match index {
        0 => "0.0001",
        1 => "0.00025",
        2 => "0.0005",
        3 => "0.001",
        4 => "0.0025",
        5 => "0.005",
        6 => "0.01",
        7 => "0.025",
        8 => "0.05",
        9 => "0.1",
        10 => "0.25",
        11 => "0.5",
        12 => "1",
        _ => "2.5",
    }
}
