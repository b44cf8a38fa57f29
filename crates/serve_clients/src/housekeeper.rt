//! The thread that lets extents leave the metadata.
use crate::service::Service;
use session_api::Device;
use std::sync::Wait;
use std::sync::atomic::{AtomicBool, Ordering};
use std::thread;
use std::time::{Clock, Duration};

/// The time between two looks, in milliseconds.
const LOOK_MS: u64 = 100;

/// Looks from one round to the next: five seconds. What was not written to for so long leaves.
const LOOKS_A_ROUND: u32 = 50;

/// The most extents that a round prepares, since the primary is locked meanwhile.
const MOST_PREPARED: u64 = 1024;

/// Lets extents leave the metadata until the session is over, once more of them are entered than stay: in each round some are prepared, and
/// those of them that were not written to in the meantime leave after both images were synced. If a sync fails, none leaves.
pub(crate) fn keep_house<R: Wait + Clock>(
    rt: &R,
    service: &Service,
    device: &impl Device,
    over: &AtomicBool,
) {
    let mut looks = 0u32;
    let mut prepared = 0u64;
    for _ in rt.forever() {
        if over.load(Ordering::SeqCst) {
            break;
        }
        looks = looks.saturating_add(1);
        if looks >= LOOKS_A_ROUND {
            looks = 0;
            if prepared > 0 && is_synced(rt, service) {
                device.leave_prepared();
            }
            prepared = device.prepare_leaving(MOST_PREPARED);
        }
        thread::sleep(rt, Duration::from_millis(LOOK_MS));
    }
}

// Syncs both images. Returns whether both are on stable storage, and no sync had failed before.
fn is_synced<R: Wait>(rt: &R, service: &Service) -> bool {
    let failed = service.requests.sync_images(rt);
    failed.local.is_none() && failed.peer.is_none()
}
