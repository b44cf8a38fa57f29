//! A report as JSON.
use crate::latencies::{CommandLatency, Latencies};
use crate::{ReceiptCounts, Resync, ServerStart, StatusReport};
use node_lines::{PrimaryProgress, SecondaryProgress};
use serde_json::{Value, json};
use status_lines::protocol_name;
use std::alloc::{AllocError, Global};

impl StatusReport {
    /// Returns the report as a JSON text: an object for each node, with a member for each word and number of its status
    /// line, and `metadata_failed`; `size_kib`; `start`; `resync`, which is null if no resync goes on; `peer_sync_failed`; `clients`; `receipts_linked` and
    /// `receipts_alone`; and `requests`, with an object for each command.
    pub fn json(&self, alloc: Global) -> Result<String, AllocError> {
        let primary = primary_value(alloc, &self.primary)?;
        let secondary = secondary_value(alloc, &self.secondary)?;
        let start = start_value(alloc, self.start)?;
        let resync = progress(alloc, self.resync)?;
        let requests = requests_value(alloc, &self.latencies)?;
        let size = self.size_kib();
        let ReceiptCounts { linked, alone } = self.receipts;
        let report = json!(in alloc; {
            "primary": primary,
            "secondary": secondary,
            "size_kib": size,
            "start": start,
            "resync": resync,
            "peer_sync_failed": self.is_peer_failed,
            "clients": self.clients,
            "receipts_linked": linked,
            "receipts_alone": alone,
            "requests": requests
        })?;
        report.to_string(alloc)
    }
}

// Returns what the primary's line shows, how many writes its session has accepted, and whether its metadata failed.
fn primary_value(alloc: Global, progress: &PrimaryProgress) -> Result<Value, AllocError> {
    let line = progress.line;
    let words = line.words;
    let accepted = progress.accepted;
    json!(in alloc; {
        "connection": words.link.name(),
        "role": words.own_role.name(),
        "peer_role": words.other_role.name(),
        "disk": words.own_disk.name(),
        "peer_disk": words.other_disk.name(),
        "protocol": protocol_name(line.protocol),
        "unanswered_writes": line.pe,
        "open_writes": line.ap,
        "open_epochs": line.ep,
        "out_of_sync_kib": line.oos,
        "accepted_writes": accepted,
        "metadata_failed": progress.is_metadata_broken
    })
}

// Returns what the secondary's line shows, and whether its metadata failed.
fn secondary_value(alloc: Global, progress: &SecondaryProgress) -> Result<Value, AllocError> {
    let line = progress.line;
    let words = line.words;
    json!(in alloc; {
        "connection": words.link.name(),
        "role": words.own_role.name(),
        "peer_role": words.other_role.name(),
        "disk": words.own_disk.name(),
        "peer_disk": words.other_disk.name(),
        "protocol": protocol_name(line.protocol),
        "pending_items": line.pending,
        "is_consistent": line.usable,
        "whole_epoch": line.whole,
        "metadata_failed": progress.is_metadata_broken
    })
}

// Returns how the server began.
fn start_value(alloc: Global, start: ServerStart) -> Result<Value, AllocError> {
    let after = start.after.name();
    let kib = start.kib();
    json!(in alloc; {"after": after, "to_copy_kib": kib})
}

// Returns how many requests of each command there were, and how long they took.
fn requests_value(alloc: Global, latencies: &Latencies) -> Result<Value, AllocError> {
    let read = command_value(alloc, &latencies.read)?;
    let write = command_value(alloc, &latencies.write)?;
    let flush = command_value(alloc, &latencies.flush)?;
    let zeroes = command_value(alloc, &latencies.write_zeroes)?;
    json!(in alloc; {"read": read, "write": write, "flush": flush, "write_zeroes": zeroes})
}

// Returns how many requests of a command there were, and how long they took.
fn command_value(alloc: Global, latency: &CommandLatency) -> Result<Value, AllocError> {
    let count = latency.count;
    let microseconds = latency.microseconds;
    json!(in alloc; {"count": count, "microseconds": microseconds})
}

// Returns the progress of a resync. What is not known yet is null.
fn progress(alloc: Global, resync: Option<Resync>) -> Result<Value, AllocError> {
    let Some(resync) = resync else {
        return Ok(Value::Null);
    };
    let percent = resync.percent();
    let left = resync.left_kib();
    let rate = number(alloc, resync.kib_per_second())?;
    let seconds = number(alloc, resync.seconds_left())?;
    json!(in alloc; {"percent": percent, "left_kib": left, "kib_per_second": rate, "seconds_left": seconds})
}

// Returns a number, or null for none.
fn number(alloc: Global, number: Option<u64>) -> Result<Value, AllocError> {
    match number {
        Some(number) => json!(in alloc; number),
        None => Ok(Value::Null),
    }
}
