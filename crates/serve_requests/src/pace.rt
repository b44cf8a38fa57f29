//! The time in which a client has to take its replies.
ghost use Rattle.serve_requests.specs.Pace.{allowed_nanos};
ghost use Rattle.std.specs.Duration.{as_nanos};
ghost use Rattle.std.specs.Prelude.{◌≡◌, ◌+◌, ◌<◌, ◌↔◌, IsSome, IfSome};

use std::time::Duration;

/// Bytes of a MiB.
const MIB: u64 = 1_048_576;

// Returns how long a client that has taken `written` bytes may take for all of the next one: the milliseconds for each MiB
// that it has begun.
fn allowed(ms_per_mib: u16, written: u64) -> Duration
    ensures { as_nanos result ≡ allowed_nanos ms_per_mib written }
{
    Duration::from_millis(u64::from(ms_per_mib) * (written / MIB + 1))
}

/// Returns how long a write may still wait for a client that has taken `written` bytes in the time `elapsed`, if it has
/// these milliseconds for each MiB that it begins: never zero. Returns `None` if it was too slow.
pub fn time_left(ms_per_mib: u16, written: u64, elapsed: Duration) -> Option<Duration>
    ensures variant { IsSome result ↔ (as_nanos elapsed < allowed_nanos ms_per_mib written) }
    ensures some { IfSome result (λ left. as_nanos left + as_nanos elapsed ≡ allowed_nanos ms_per_mib written) }
{
    let left = allowed(ms_per_mib, written).saturating_sub(elapsed);
    if left.is_zero() { None } else { Some(left) }
}
