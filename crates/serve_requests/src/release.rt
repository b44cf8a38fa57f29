//! Waiting until writes are released.
use session_api::Device;
use std::sync::Wait;
use std::thread;
use std::time::{Clock, Duration};

/// How long a thread sleeps before it looks again, in milliseconds.
const PAUSE_MS: u64 = 1;

/// Waits until each write that is accepted by now is released. Writes go on meanwhile, and so may a resync. If the link is
/// lost, the writes have no connection any more, and are released once the local disk has done them.
pub(crate) fn wait_for_release<R: Wait + Clock>(rt: &R, device: &impl Device) {
    let mut primary = device.primary_progress();
    let last = primary.accepted;
    for _ in rt.forever() {
        if primary.released >= last {
            break;
        }
        thread::sleep(rt, Duration::from_millis(PAUSE_MS));
        primary = device.primary_progress();
    }
}
