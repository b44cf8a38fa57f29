//! A report as metrics for Prometheus.
ghost use Rattle.std.specs.Prelude.{◌≡◌, ◌*◌, string_bytes, IfOk};
ghost use Rattle.serve_page.specs.Metrics as metrics;

use crate::histogram::command_samples;
use crate::latencies::Latencies;
use crate::report::{BLOCK_BYTES, Resync, StatusReport};
use crate::samples::{counter, gauge, head, info, node_counter, node_gauge};
use crate::start::ServerStart;
use status_lines::{DiskState, LinkState, PrimaryLine, Role};
use std::alloc::{AllocError, Global};

impl StatusReport {
    /// Returns the report as metrics in the text form of Prometheus, each with what it is and its kind. Their names are those under which
    /// node-exporter has DRBD's, with `drbdpair` before them, and further ones for what it does not have. What is not known yet of a
    /// resync is left out, as all of it is while none runs. `AllocError` if there is no memory for the text.
    pub fn metrics(&self, alloc: Global) -> Result<String, AllocError>
        ensures { IfOk result (λ text. string_bytes text ≡ metrics.metrics_text self.now) }
    {
        let link = link_metrics(alloc, &self.primary.line)?;
        let counts = count_metrics(alloc, &self.primary.line)?;
        let device = device_metrics(alloc, self)?;
        let peer = peer_metrics(alloc, self)?;
        let metadata = metadata_metrics(alloc, self)?;
        let clients = client_metrics(alloc, self)?;
        let latencies = latency_metrics(alloc, &self.latencies)?;
        let start = start_metrics(alloc, self.start)?;
        let resync = resync_metrics(alloc, self.resync)?;
        format!(in alloc;
            "{link}{counts}{device}{peer}{metadata}{clients}{latencies}{start}{resync}"
        )
    }
}

// Returns the metrics of the words of the primary's line.
fn link_metrics(alloc: Global, line: &PrimaryLine) -> Result<String, AllocError>
    ensures { IfOk result (λ text. string_bytes text ≡ metrics.link_metrics line.now) }
{
    let words = line.words;
    let link = gauge(
        alloc,
        "connected",
        "Whether the link is Connected; 0 while a resync runs.",
        is_connected(words.link),
    )?;
    let roles = node_gauge(
        alloc,
        "node_role_is_primary",
        "Whether the role of the node is in the primary state.",
        is_primary(words.own_role),
        is_primary(words.other_role),
    )?;
    let disks = node_gauge(
        alloc,
        "disk_state_is_up_to_date",
        "Whether the disk of the node is up to date.",
        is_up_to_date(words.own_disk),
        is_up_to_date(words.other_disk),
    )?;
    format!(in alloc; "{link}{roles}{disks}")
}

// Returns the metrics of the numbers of the primary's line.
fn count_metrics(alloc: Global, line: &PrimaryLine) -> Result<String, AllocError>
    ensures { IfOk result (λ text. string_bytes text ≡ metrics.count_metrics line.now) }
{
    let remote = gauge(
        alloc,
        "remote_pending",
        "Writes that wait for the answer of the peer.",
        line.pe,
    )?;
    let application = gauge(
        alloc,
        "application_pending",
        "Writes of clients that are not completed.",
        line.ap,
    )?;
    let epochs = gauge(
        alloc,
        "epochs",
        "Epochs that are not acknowledged.",
        line.ep,
    )?;
    format!(in alloc; "{remote}{application}{epochs}")
}

// Returns the metrics of the device, its marked blocks, and the writes of the session.
fn device_metrics(alloc: Global, report: &StatusReport) -> Result<String, AllocError>
    ensures { IfOk result (λ text. string_bytes text ≡ metrics.device_metrics report.now) }
{
    let size = gauge(
        alloc,
        "size_bytes",
        "Size of the device; in bytes.",
        bytes_of(report.blocks),
    )?;
    let out_of_sync = gauge(
        alloc,
        "out_of_sync_bytes",
        "Amount of data known to be out of sync; in bytes.",
        bytes_of(report.primary.marks),
    )?;
    let accepted = counter(
        alloc,
        "writes_accepted_total",
        "Ranges that clients wrote, of 32 blocks at most, since the session began.",
        report.primary.accepted,
    )?;
    let released = counter(
        alloc,
        "writes_released_total",
        "Those of them that need no more of either node.",
        report.primary.released,
    )?;
    format!(in alloc; "{size}{out_of_sync}{accepted}{released}")
}

// Returns the metrics of the peer's disk, and of the metadata of both nodes.
fn peer_metrics(alloc: Global, report: &StatusReport) -> Result<String, AllocError>
    ensures { IfOk result (λ text. string_bytes text ≡ metrics.peer_metrics report.now) }
{
    let pending = gauge(
        alloc,
        "peer_pending",
        "Items that wait for the disk of the peer.",
        report.secondary.line.pending,
    )?;
    let consistent = gauge(
        alloc,
        "peer_is_consistent",
        "Whether the data of the peer may be used as they are.",
        truth(report.secondary.line.usable),
    )?;
    let failed = gauge(
        alloc,
        "peer_sync_failed",
        "Whether a sync of the image of the peer has failed, which leaves it out.",
        truth(report.is_peer_failed),
    )?;
    let metadata = node_gauge(
        alloc,
        "metadata_failed",
        "Whether the metadata of the node could not be written.",
        truth(report.primary.is_metadata_broken),
        truth(report.secondary.is_metadata_broken),
    )?;
    format!(in alloc; "{pending}{consistent}{failed}{metadata}")
}

// Returns the metrics of the writes to the metadata of both nodes.
fn metadata_metrics(alloc: Global, report: &StatusReport) -> Result<String, AllocError>
    ensures { IfOk result (λ text. string_bytes text ≡ metrics.metadata_metrics report.now) }
{
    let entries = node_counter(
        alloc,
        "activitylog_writes_total",
        "Writes to the activity log of the node, since the server began.",
        report.local_metadata.activity_log,
        report.peer_metadata.activity_log,
    )?;
    let marks = node_counter(
        alloc,
        "bitmap_writes_total",
        "Writes to the bitmap of the node, since the server began.",
        report.local_metadata.bitmap,
        report.peer_metadata.bitmap,
    )?;
    format!(in alloc; "{entries}{marks}")
}

// Returns the metrics of the block clients, and of what they were told of their writes.
fn client_metrics(alloc: Global, report: &StatusReport) -> Result<String, AllocError>
    ensures { IfOk result (λ text. string_bytes text ≡ metrics.client_metrics report.now) }
{
    let clients = gauge(
        alloc,
        "clients",
        "Block clients that are connected.",
        u64::from(report.clients),
    )?;
    let linked = counter(
        alloc,
        "receipts_linked_total",
        "Completed ranges that the peer has, as the protocol asks, since the server began.",
        report.receipts.linked,
    )?;
    let alone = counter(
        alloc,
        "receipts_alone_total",
        "Completed ranges that the local image alone had, since the server began.",
        report.receipts.alone,
    )?;
    format!(in alloc; "{clients}{linked}{alone}")
}

// Returns the metric of how long requests took.
fn latency_metrics(alloc: Global, latencies: &Latencies) -> Result<String, AllocError>
    ensures { IfOk result (λ text. string_bytes text ≡ metrics.latency_metrics latencies.now) }
{
    let head = head(
        alloc,
        "request_seconds",
        "How long requests took, from when a thread took them to their reply; in seconds.",
        "histogram",
    )?;
    let read = command_samples(alloc, "read", &latencies.read)?;
    let write = command_samples(alloc, "write", &latencies.write)?;
    let flush = command_samples(alloc, "flush", &latencies.flush)?;
    let zeroes = command_samples(alloc, "write_zeroes", &latencies.write_zeroes)?;
    format!(in alloc; "{head}{read}{write}{flush}{zeroes}")
}

// Returns the metrics of how the server began.
fn start_metrics(alloc: Global, start: ServerStart) -> Result<String, AllocError>
    ensures { IfOk result (λ text. string_bytes text ≡ metrics.start_metrics start) }
{
    let after = info(
        alloc,
        "start_info",
        "What the server began after.",
        "after",
        start.after.name(),
    )?;
    let to_copy = gauge(
        alloc,
        "start_to_copy_bytes",
        "Amount of data that the server had to copy when it began; in bytes.",
        bytes_of(start.to_copy),
    )?;
    format!(in alloc; "{after}{to_copy}")
}

// Returns the metrics of a resync, or that none runs.
fn resync_metrics(alloc: Global, resync: Option<Resync>) -> Result<String, AllocError>
    ensures { IfOk result (λ text. string_bytes text ≡ metrics.resync_metrics resync) }
{
    let Some(resync) = resync else {
        return gauge(alloc, "resync_running", "Whether a resync runs.", 0);
    };
    let running = gauge(alloc, "resync_running", "Whether a resync runs.", 1)?;
    let left = gauge(
        alloc,
        "resync_left_bytes",
        "Amount of data that the resync has still to copy; in bytes.",
        bytes_of(resync.left),
    )?;
    let rate = known_gauge(
        alloc,
        "resync_bytes_per_second",
        "Bytes that the resync has copied in a second.",
        resync.bytes_per_second(),
    )?;
    let seconds = known_gauge(
        alloc,
        "resync_left_seconds",
        "Seconds until the resync is done at that rate.",
        resync.seconds_left(),
    )?;
    format!(in alloc; "{running}{left}{rate}{seconds}")
}

// Returns a metric of a number, or nothing if that is not known.
fn known_gauge(
    alloc: Global,
    name: &str,
    help: &str,
    number: Option<u64>,
) -> Result<String, AllocError>
    ensures { IfOk result (λ text. string_bytes text ≡ metrics.known_gauge name.now help.now number) }
{
    match number {
        Some(number) => gauge(alloc, name, help, number),
        None => Ok(String::new(alloc)),
    }
}

// Returns how many bytes these blocks have.
fn bytes_of(blocks: u32) -> u64
    ensures { result ≡ 4096 * blocks }
{
    BLOCK_BYTES * u64::from(blocks)
}

// Returns 1 for what is so, and 0 for what is not.
fn truth(is_so: bool) -> u64
    ensures { result ≡ metrics.truth is_so }
{
    if is_so { 1 } else { 0 }
}

// Returns 1 for a link that is connected with no resync, and 0 for any other.
fn is_connected(link: LinkState) -> u64
    ensures { result ≡ metrics.is_connected link }
{
    match link {
        LinkState::Connected => 1,
        _ => 0,
    }
}

// Returns 1 for the primary, and 0 for any other role.
fn is_primary(role: Role) -> u64
    ensures { result ≡ metrics.is_primary role }
{
    match role {
        Role::Primary => 1,
        _ => 0,
    }
}

// Returns 1 for a disk that is up to date, and 0 for any other.
fn is_up_to_date(disk: DiskState) -> u64
    ensures { result ≡ metrics.is_up_to_date disk }
{
    match disk {
        DiskState::UpToDate => 1,
        _ => 0,
    }
}
