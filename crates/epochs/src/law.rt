//! The law of every stream that the calls make.
ghost use Rattle.epochs.specs.Streams.{StreamsAreLawful};

/// States a law by its contract, and does nothing. For every list of the calls `place`, `uuids` and `completed`, with
/// rising write numbers: an item of the stream is at the place that the call returned for it, barriers are numbered
/// 1, 2, .., write numbers rise, no epoch has more than `max_epoch` writes, and `completed` was called for no item of
/// the last epoch.
pub fn streams_are_lawful()
    ensures { StreamsAreLawful }
{}
