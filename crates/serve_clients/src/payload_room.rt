//! Room for the payloads of long WRITEs.
use crate::request_budget::RequestBudget;
use std::sync::Wait;
use std::time::{Clock, Duration, Instant};

/// The places for the payloads of all clients' long WRITEs, of 1 MiB each: together they hold no more than 64 MiB.
pub(crate) const PAYLOAD_PLACES: u32 = 64;

/// Bytes of a place.
const PLACE_BYTES: u32 = 1 << 20;

/// The most bytes of a payload that needs no place: 2 MiB.
const SHORT_BYTES: u32 = 2 << 20;

/// How long a client with places may send nothing, in seconds. For all of its payload it has that time for each place, and once besides.
const PATIENCE_S: u64 = 10;

/// The places that one client has for the payload that it sends. It takes all that it needs at once and waits for nothing while it has
/// them, so no two clients wait for each other.
#[derive(Drop)]
pub(crate) struct PayloadRoom {
    places: u32,
    // When it took them, and when the last bytes came since, if there is a clock.
    taken: Option<Instant>,
    last: Option<Instant>,
}

impl PayloadRoom {
    /// Creates one without places.
    pub(crate) fn none() -> PayloadRoom {
        PayloadRoom {
            places: 0,
            taken: None,
            last: None,
        }
    }

    /// Takes the places for a payload of `bytes` bytes, unless it has some. Returns whether there is room for the payload: it is short, or
    /// its places were free or became so in a moment.
    pub(crate) fn take<R: Wait + Clock>(
        &mut self,
        rt: &R,
        budget: &RequestBudget,
        bytes: u32,
    ) -> bool {
        if bytes <= SHORT_BYTES || self.places > 0 {
            return true;
        }
        let places = bytes.div_ceil(PLACE_BYTES).min(PAYLOAD_PLACES);
        if !budget.take(rt, places) {
            return false;
        }
        self.places = places;
        self.taken = Instant::now(rt).ok();
        self.last = self.taken;
        true
    }

    /// Frees its places.
    pub(crate) fn free<R: Wait>(&mut self, rt: &R, budget: &RequestBudget) {
        budget.free(rt, self.places);
        self.places = 0;
    }

    /// Notes that bytes came.
    pub(crate) fn note_bytes<R: Clock>(&mut self, rt: &R) {
        if self.places > 0 {
            self.last = Instant::now(rt).ok();
        }
    }

    /// Returns whether it has places, and no bytes came for longer than a client may send nothing.
    pub(crate) fn has_stalled<R: Clock>(&self, rt: &R) -> bool {
        self.places > 0 && has_passed(rt, self.last, PATIENCE_S)
    }

    /// Returns whether it has places for longer than a client may take for its payload.
    pub(crate) fn is_overdue<R: Clock>(&self, rt: &R) -> bool {
        let patience = PATIENCE_S * (u64::from(self.places) + 1);
        self.places > 0 && has_passed(rt, self.taken, patience)
    }
}

// Returns whether these seconds have passed since then. Without a clock they have not.
fn has_passed<R: Clock>(rt: &R, then: Option<Instant>, seconds: u64) -> bool {
    match then.map(|then| then.elapsed(rt)) {
        Some(Ok(elapsed)) => elapsed >= Duration::from_secs(seconds),
        Some(Err(_)) | None => false,
    }
}
