//! The histogram of the latencies in the text form of Prometheus.
ghost use Rattle.std.specs.Prelude.{◌≡◌, Some, codes, string_bytes, IfOk};
ghost use Rattle.serve_page.specs.Latencies.{bucket_text, buckets_text, command_text, seconds_text};

use crate::latencies::{BOUNDS, CommandLatency, bound};
use std::alloc::{AllocError, Global};
use std::fmt;

/// Returns the samples of one command: how many requests took no longer than each bound, how long all took together, and how many there
/// were.
pub(crate) fn command_samples(
    alloc: Global,
    command: &str,
    latency: &CommandLatency,
) -> Result<String, AllocError>
    ensures { IfOk result (λ text. string_bytes text ≡ command_text command.now latency.now) }
{
    let CommandLatency {
        within,
        count,
        microseconds,
    } = *latency;
    let buckets = buckets(alloc, command, &within)?;
    let all = bucket(alloc, command, "+Inf", count)?;
    let seconds = Seconds(microseconds);
    format!(in alloc;
        "{buckets}{all}drbdpair_request_seconds_sum{{command=\"{command}\"}} {seconds}\ndrbdpair_request_seconds_count{{command=\"{command}\"}} {count}\n"
    )
}

/// Microseconds that are written as seconds.
#[derive(Clone, Copy)]
struct Seconds(u64);

impl fmt::Display for Seconds {
    ghost output = { λ seconds. Some (seconds_text seconds.0) };

    fn fmt<W: fmt::Write>(&self, f: &mut fmt::Formatter<W>) -> fmt::Result {
        let whole = self.0 / 1_000_000;
        let rest = self.0 % 1_000_000;
        write!(f, "{whole}.{rest:06}")
    }
}

// Returns a sample for each bound.
fn buckets(alloc: Global, command: &str, within: &[u64; BOUNDS]) -> Result<String, AllocError>
    ensures { IfOk result (λ text. string_bytes text ≡ buckets_text command.now 0 within.now) }
{
    let mut text = String::new(alloc);
    for (index, count) in within.iter().enumerate() {
        let bound = bound(index);
        write!(
            text,
            "drbdpair_request_seconds_bucket{{command=\"{command}\",le=\"{bound}\"}} {count}\n"
        )?;
    }
    Ok(text)
}

// Returns the sample of one bound.
fn bucket(alloc: Global, command: &str, bound: &str, count: u64) -> Result<String, AllocError>
    ensures { IfOk result (λ text. string_bytes text ≡ bucket_text command.now bound.now count) }
{
    format!(in alloc;
        "drbdpair_request_seconds_bucket{{command=\"{command}\",le=\"{bound}\"}} {count}\n"
    )
}
