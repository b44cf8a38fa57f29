//! Shortening a list of events that fails.
use crate::broken::Stopped;
use crate::event::Event;
use crate::plan::Plan;
use crate::running::replay;
use std::alloc::{AllocError, Global};

/// How many shorter lists are tried at the most.
const TRIES: u64 = 3_000;

/// Has a list of events that breaks a promise be a shorter one that breaks a promise too: runs of events are left out, and then single ones.
pub(crate) fn shorten(
    alloc: Global,
    plan: Plan,
    events: &mut Vec<Event>,
) -> Result<(), AllocError> {
    let mut length = events.len() / 2;
    let mut at = 0usize;
    for _ in 0..TRIES {
        if length == 0 {
            break;
        }
        if leave_out(alloc, plan, events, at, length)? {
            continue;
        }
        at = at.saturating_add(length);
        if at >= events.len() {
            at = 0;
            length /= 2;
        }
    }
    Ok(())
}

// Leaves out `count` events from `at` on, if there are some and the rest breaks a promise too. Returns whether it did.
fn leave_out(
    alloc: Global,
    plan: Plan,
    events: &mut Vec<Event>,
    at: usize,
    count: usize,
) -> Result<bool, AllocError> {
    let rest = without(alloc, events.as_slice(), at, count)?;
    let is_shorter = rest.len() < events.len();
    let is_broken = is_shorter
        && matches!(
            replay(alloc, plan, rest.as_slice()),
            Err(Stopped::Broken(_))
        );
    if is_broken {
        *events = rest;
    }
    Ok(is_broken)
}

// Returns the events without `count` of them from `at` on.
fn without(
    alloc: Global,
    events: &[Event],
    at: usize,
    count: usize,
) -> Result<Vec<Event>, AllocError> {
    let mut rest = Vec::new(alloc);
    for (place, event) in events.iter().enumerate() {
        if place < at || place.saturating_sub(at) >= count {
            rest.push(*event)?;
        }
    }
    Ok(rest)
}
