//! Limits on requests under way.
ghost use Rattle.std.specs.Prelude.{◌≡◌};
ghost use Rattle.serve_clients.specs.RequestBudget.{blocks_of, places_for, places_of};

use blocks::BLOCK_BYTES;
use nbd::{NbdCommand, Request};
use std::sync::{Condvar, Mutex, Wait};
use std::time::{Clock, Duration};

/// The places of a client for requests that wait for stable storage. A request has one for each 2 MiB that it reads or writes, zeros too, so
/// those under way are 16 at most, with 32 MiB of data together.
pub(crate) const PLACES: u32 = 16;

/// Blocks of data for each place: 2 MiB.
const BLOCKS_A_PLACE: u32 = 512;

/// How long a thread waits for places before it looks whether it has anything else to do, in milliseconds.
const LOOK_MS: u64 = 20;

/// Places for requests under way.
#[derive(Drop)]
pub(crate) struct RequestBudget {
    free: Mutex<u32>,
    freed: Condvar,
}

impl RequestBudget {
    /// Creates this many places, with no request under way.
    pub(crate) fn new(places: u32) -> RequestBudget {
        RequestBudget {
            free: Mutex::new(places),
            freed: Condvar::new(),
        }
    }

    /// Takes `count` places, or none. Returns whether it took them: they were free, or became free in a moment.
    pub(crate) fn take<R: Wait + Clock>(&self, rt: &R, count: u32) -> bool {
        let mut free = self.free.lock(rt);
        if *free < count {
            let look = Duration::from_millis(LOOK_MS);
            free = self.freed.wait_timeout(rt, free, look).0;
        }
        match free.checked_sub(count) {
            Some(left) => {
                *free = left;
                true
            }
            None => false,
        }
    }

    /// Takes `count` places, or none, at once. Returns whether it took them.
    pub(crate) fn take_now<R: Wait>(&self, rt: &R, count: u32) -> bool {
        let mut free = self.free.lock(rt);
        match free.checked_sub(count) {
            Some(left) => {
                *free = left;
                true
            }
            None => false,
        }
    }

    /// Frees `count` places.
    pub(crate) fn free<R: Wait>(&self, rt: &R, count: u32) {
        if count > 0 {
            let mut free = self.free.lock(rt);
            *free = free.saturating_add(count);
            drop(free);
            self.freed.notify_one();
        }
    }
}

/// Returns how many blocks' bytes a request reads or writes, the last one begun: none for a FLUSH, and none for a BLOCK_STATUS, which
/// looks only where the images have data.
pub(crate) fn blocks_of(request: &Request) -> u32
    ensures { result ≡ blocks_of request.now }
{
    match request.command() {
        NbdCommand::Read | NbdCommand::Write | NbdCommand::Trim | NbdCommand::WriteZeroes => {
            request.length().div_ceil(BLOCK_BYTES as u32)
        }
        NbdCommand::Flush | NbdCommand::Disconnect | NbdCommand::BlockStatus => 0,
    }
}

/// Returns how many places a request has: one for each 2 MiB begun that it reads or writes, at least one.
pub(crate) fn places_of(request: &Request) -> u32
    ensures { result ≡ places_of request.now }
{
    places_for(blocks_of(request))
}

// Returns how many places a request has that reads or writes this many blocks.
fn places_for(block_count: u32) -> u32
    ensures { result ≡ places_for block_count }
{
    block_count.div_ceil(BLOCKS_A_PLACE).min(PLACES).max(1)
}
