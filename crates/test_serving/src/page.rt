//! Tests of the texts of the status page, written out by hand.
use blocks::Protocol;
use serve_page::{
    CellState, CommandLatency, DeviceMap, Latencies, MetadataWrites, ReceiptCounts, ReportSource,
    Resync, ServerStart, StartedAfter, StatusReport, answer_one,
};
use session_api::{ConnectionItems, PrimaryProgress, Progress, SecondaryProgress};
use status_lines::{DiskState, LinkState, PrimaryLine, Role, SecondaryLine, Words};
use std::hash::RandomState;
use std::io;
use std::process::Abort;
use std::random::RandomSource;

/// Returns how far both nodes have come when a resync has copied one of four blocks.
pub(crate) fn resync_progress() -> Progress {
    let (primary, secondary) = resync_lines();
    Progress {
        primary: PrimaryProgress {
            line: primary,
            accepted: 3,
            released: 0,
            marks: 3,
            sent: ConnectionItems {
                connection: 2,
                items: 5,
            },
            is_quiet: false,
            has_unfinished: true,
            is_metadata_broken: false,
        },
        secondary: SecondaryProgress {
            line: secondary,
            is_open: true,
            taken: ConnectionItems {
                connection: 2,
                items: 4,
            },
            applied: 1,
            has_unfinished: true,
            is_metadata_broken: false,
        },
    }
}

// Returns what both nodes' lines show then.
fn resync_lines() -> (PrimaryLine, SecondaryLine) {
    let primary = PrimaryLine {
        words: Words {
            link: LinkState::SyncSource,
            own_role: Role::Primary,
            other_role: Role::Secondary,
            own_disk: DiskState::UpToDate,
            other_disk: DiskState::Inconsistent,
        },
        protocol: Protocol::C,
        pe: 0,
        ap: 1,
        ep: 2,
        oos: 12,
    };
    let secondary = SecondaryLine {
        words: Words {
            link: LinkState::SyncTarget,
            own_role: Role::Secondary,
            other_role: Role::Primary,
            own_disk: DiskState::Inconsistent,
            other_disk: DiskState::UpToDate,
        },
        protocol: Protocol::C,
        pending: 3,
        usable: false,
        whole: 1,
    };
    (primary, secondary)
}

const LINES: &str =
    "cs:SyncSource ro:Primary/Secondary ds:UpToDate/Inconsistent pr:C pe:0 ap:1 ep:2 oos:12\ncs:SyncTarget ro:Secondary/Primary ds:Inconsistent/UpToDate pr:C pending:3 use:No whole:1\nsize: 20 KiB\nstart: the last server was killed, 16 KiB to copy\nresync: 25% done, 12 KiB left, 2 KiB/s, 6 s to go\n";

const JSON: &str =
    "{\"clients\":2,\"peer_sync_failed\":false,\"primary\":{\"accepted_writes\":3,\"connection\":\"SyncSource\",\"disk\":\"UpToDate\",\"metadata_failed\":false,\"open_epochs\":2,\"open_writes\":1,\"out_of_sync_kib\":12,\"peer_disk\":\"Inconsistent\",\"peer_role\":\"Secondary\",\"protocol\":\"C\",\"role\":\"Primary\",\"unanswered_writes\":0},\"receipts_alone\":1,\"receipts_linked\":2,\"requests\":{\"flush\":{\"count\":0,\"microseconds\":0},\"read\":{\"count\":0,\"microseconds\":0},\"write\":{\"count\":3,\"microseconds\":1500400},\"write_zeroes\":{\"count\":0,\"microseconds\":0}},\"resync\":{\"kib_per_second\":2,\"left_kib\":12,\"percent\":25,\"seconds_left\":6},\"secondary\":{\"connection\":\"SyncTarget\",\"disk\":\"Inconsistent\",\"is_consistent\":false,\"metadata_failed\":false,\"peer_disk\":\"UpToDate\",\"peer_role\":\"Primary\",\"pending_items\":3,\"protocol\":\"C\",\"role\":\"Secondary\",\"whole_epoch\":1},\"size_kib\":20,\"start\":{\"after\":\"killed\",\"to_copy_kib\":16}}";

const LEFT_OUT: &str =
    "cs:SyncSource ro:Primary/Secondary ds:UpToDate/Inconsistent pr:C pe:0 ap:1 ep:2 oos:12\ncs:SyncTarget ro:Secondary/Primary ds:Inconsistent/UpToDate pr:C pending:3 use:No whole:1\nsize: 20 KiB\nstart: no metadata is kept, 0 KiB to copy\na sync of the peer's image failed: the link stays down until the server ends\n";

const LEFT_OUT_JSON: &str =
    "{\"clients\":0,\"peer_sync_failed\":true,\"primary\":{\"accepted_writes\":3,\"connection\":\"SyncSource\",\"disk\":\"UpToDate\",\"metadata_failed\":false,\"open_epochs\":2,\"open_writes\":1,\"out_of_sync_kib\":12,\"peer_disk\":\"Inconsistent\",\"peer_role\":\"Secondary\",\"protocol\":\"C\",\"role\":\"Primary\",\"unanswered_writes\":0},\"receipts_alone\":0,\"receipts_linked\":0,\"requests\":{\"flush\":{\"count\":0,\"microseconds\":0},\"read\":{\"count\":0,\"microseconds\":0},\"write\":{\"count\":0,\"microseconds\":0},\"write_zeroes\":{\"count\":0,\"microseconds\":0}},\"resync\":null,\"secondary\":{\"connection\":\"SyncTarget\",\"disk\":\"Inconsistent\",\"is_consistent\":false,\"metadata_failed\":false,\"peer_disk\":\"UpToDate\",\"peer_role\":\"Primary\",\"pending_items\":3,\"protocol\":\"C\",\"role\":\"Secondary\",\"whole_epoch\":1},\"size_kib\":20,\"start\":{\"after\":\"no-metadata\",\"to_copy_kib\":0}}";

const METRICS: &str = "\
# HELP drbdpair_connected Whether the link is Connected; 0 while a resync runs.
# TYPE drbdpair_connected gauge
drbdpair_connected 0
# HELP drbdpair_node_role_is_primary Whether the role of the node is in the primary state.
# TYPE drbdpair_node_role_is_primary gauge
drbdpair_node_role_is_primary{node=\"local\"} 1
drbdpair_node_role_is_primary{node=\"remote\"} 0
# HELP drbdpair_disk_state_is_up_to_date Whether the disk of the node is up to date.
# TYPE drbdpair_disk_state_is_up_to_date gauge
drbdpair_disk_state_is_up_to_date{node=\"local\"} 1
drbdpair_disk_state_is_up_to_date{node=\"remote\"} 0
# HELP drbdpair_remote_pending Writes that wait for the answer of the peer.
# TYPE drbdpair_remote_pending gauge
drbdpair_remote_pending 0
# HELP drbdpair_application_pending Writes of clients that are not completed.
# TYPE drbdpair_application_pending gauge
drbdpair_application_pending 1
# HELP drbdpair_epochs Epochs that are not acknowledged.
# TYPE drbdpair_epochs gauge
drbdpair_epochs 2
# HELP drbdpair_size_bytes Size of the device; in bytes.
# TYPE drbdpair_size_bytes gauge
drbdpair_size_bytes 20480
# HELP drbdpair_out_of_sync_bytes Amount of data known to be out of sync; in bytes.
# TYPE drbdpair_out_of_sync_bytes gauge
drbdpair_out_of_sync_bytes 12288
# HELP drbdpair_writes_accepted_total Ranges that clients wrote, of 32 blocks at most, since the session began.
# TYPE drbdpair_writes_accepted_total counter
drbdpair_writes_accepted_total 3
# HELP drbdpair_writes_released_total Those of them that need no more of either node.
# TYPE drbdpair_writes_released_total counter
drbdpair_writes_released_total 0
# HELP drbdpair_peer_pending Items that wait for the disk of the peer.
# TYPE drbdpair_peer_pending gauge
drbdpair_peer_pending 3
# HELP drbdpair_peer_is_consistent Whether the data of the peer may be used as they are.
# TYPE drbdpair_peer_is_consistent gauge
drbdpair_peer_is_consistent 0
# HELP drbdpair_peer_sync_failed Whether a sync of the image of the peer has failed, which leaves it out.
# TYPE drbdpair_peer_sync_failed gauge
drbdpair_peer_sync_failed 0
# HELP drbdpair_metadata_failed Whether the metadata of the node could not be written.
# TYPE drbdpair_metadata_failed gauge
drbdpair_metadata_failed{node=\"local\"} 0
drbdpair_metadata_failed{node=\"remote\"} 0
# HELP drbdpair_activitylog_writes_total Writes to the activity log of the node, since the server began.
# TYPE drbdpair_activitylog_writes_total counter
drbdpair_activitylog_writes_total{node=\"local\"} 7
drbdpair_activitylog_writes_total{node=\"remote\"} 0
# HELP drbdpair_bitmap_writes_total Writes to the bitmap of the node, since the server began.
# TYPE drbdpair_bitmap_writes_total counter
drbdpair_bitmap_writes_total{node=\"local\"} 5
drbdpair_bitmap_writes_total{node=\"remote\"} 0
# HELP drbdpair_clients Block clients that are connected.
# TYPE drbdpair_clients gauge
drbdpair_clients 2
# HELP drbdpair_receipts_linked_total Completed ranges that the peer has, as the protocol asks, since the server began.
# TYPE drbdpair_receipts_linked_total counter
drbdpair_receipts_linked_total 2
# HELP drbdpair_receipts_alone_total Completed ranges that the local image alone had, since the server began.
# TYPE drbdpair_receipts_alone_total counter
drbdpair_receipts_alone_total 1
# HELP drbdpair_request_seconds How long requests took, from when a thread took them to their reply; in seconds.
# TYPE drbdpair_request_seconds histogram
drbdpair_request_seconds_bucket{command=\"read\",le=\"0.0001\"} 0
drbdpair_request_seconds_bucket{command=\"read\",le=\"0.00025\"} 0
drbdpair_request_seconds_bucket{command=\"read\",le=\"0.0005\"} 0
drbdpair_request_seconds_bucket{command=\"read\",le=\"0.001\"} 0
drbdpair_request_seconds_bucket{command=\"read\",le=\"0.0025\"} 0
drbdpair_request_seconds_bucket{command=\"read\",le=\"0.005\"} 0
drbdpair_request_seconds_bucket{command=\"read\",le=\"0.01\"} 0
drbdpair_request_seconds_bucket{command=\"read\",le=\"0.025\"} 0
drbdpair_request_seconds_bucket{command=\"read\",le=\"0.05\"} 0
drbdpair_request_seconds_bucket{command=\"read\",le=\"0.1\"} 0
drbdpair_request_seconds_bucket{command=\"read\",le=\"0.25\"} 0
drbdpair_request_seconds_bucket{command=\"read\",le=\"0.5\"} 0
drbdpair_request_seconds_bucket{command=\"read\",le=\"1\"} 0
drbdpair_request_seconds_bucket{command=\"read\",le=\"2.5\"} 0
drbdpair_request_seconds_bucket{command=\"read\",le=\"+Inf\"} 0
drbdpair_request_seconds_sum{command=\"read\"} 0.000000
drbdpair_request_seconds_count{command=\"read\"} 0
drbdpair_request_seconds_bucket{command=\"write\",le=\"0.0001\"} 0
drbdpair_request_seconds_bucket{command=\"write\",le=\"0.00025\"} 0
drbdpair_request_seconds_bucket{command=\"write\",le=\"0.0005\"} 1
drbdpair_request_seconds_bucket{command=\"write\",le=\"0.001\"} 1
drbdpair_request_seconds_bucket{command=\"write\",le=\"0.0025\"} 1
drbdpair_request_seconds_bucket{command=\"write\",le=\"0.005\"} 1
drbdpair_request_seconds_bucket{command=\"write\",le=\"0.01\"} 1
drbdpair_request_seconds_bucket{command=\"write\",le=\"0.025\"} 1
drbdpair_request_seconds_bucket{command=\"write\",le=\"0.05\"} 1
drbdpair_request_seconds_bucket{command=\"write\",le=\"0.1\"} 1
drbdpair_request_seconds_bucket{command=\"write\",le=\"0.25\"} 1
drbdpair_request_seconds_bucket{command=\"write\",le=\"0.5\"} 2
drbdpair_request_seconds_bucket{command=\"write\",le=\"1\"} 2
drbdpair_request_seconds_bucket{command=\"write\",le=\"2.5\"} 3
drbdpair_request_seconds_bucket{command=\"write\",le=\"+Inf\"} 3
drbdpair_request_seconds_sum{command=\"write\"} 1.500400
drbdpair_request_seconds_count{command=\"write\"} 3
drbdpair_request_seconds_bucket{command=\"flush\",le=\"0.0001\"} 0
drbdpair_request_seconds_bucket{command=\"flush\",le=\"0.00025\"} 0
drbdpair_request_seconds_bucket{command=\"flush\",le=\"0.0005\"} 0
drbdpair_request_seconds_bucket{command=\"flush\",le=\"0.001\"} 0
drbdpair_request_seconds_bucket{command=\"flush\",le=\"0.0025\"} 0
drbdpair_request_seconds_bucket{command=\"flush\",le=\"0.005\"} 0
drbdpair_request_seconds_bucket{command=\"flush\",le=\"0.01\"} 0
drbdpair_request_seconds_bucket{command=\"flush\",le=\"0.025\"} 0
drbdpair_request_seconds_bucket{command=\"flush\",le=\"0.05\"} 0
drbdpair_request_seconds_bucket{command=\"flush\",le=\"0.1\"} 0
drbdpair_request_seconds_bucket{command=\"flush\",le=\"0.25\"} 0
drbdpair_request_seconds_bucket{command=\"flush\",le=\"0.5\"} 0
drbdpair_request_seconds_bucket{command=\"flush\",le=\"1\"} 0
drbdpair_request_seconds_bucket{command=\"flush\",le=\"2.5\"} 0
drbdpair_request_seconds_bucket{command=\"flush\",le=\"+Inf\"} 0
drbdpair_request_seconds_sum{command=\"flush\"} 0.000000
drbdpair_request_seconds_count{command=\"flush\"} 0
drbdpair_request_seconds_bucket{command=\"write_zeroes\",le=\"0.0001\"} 0
drbdpair_request_seconds_bucket{command=\"write_zeroes\",le=\"0.00025\"} 0
drbdpair_request_seconds_bucket{command=\"write_zeroes\",le=\"0.0005\"} 0
drbdpair_request_seconds_bucket{command=\"write_zeroes\",le=\"0.001\"} 0
drbdpair_request_seconds_bucket{command=\"write_zeroes\",le=\"0.0025\"} 0
drbdpair_request_seconds_bucket{command=\"write_zeroes\",le=\"0.005\"} 0
drbdpair_request_seconds_bucket{command=\"write_zeroes\",le=\"0.01\"} 0
drbdpair_request_seconds_bucket{command=\"write_zeroes\",le=\"0.025\"} 0
drbdpair_request_seconds_bucket{command=\"write_zeroes\",le=\"0.05\"} 0
drbdpair_request_seconds_bucket{command=\"write_zeroes\",le=\"0.1\"} 0
drbdpair_request_seconds_bucket{command=\"write_zeroes\",le=\"0.25\"} 0
drbdpair_request_seconds_bucket{command=\"write_zeroes\",le=\"0.5\"} 0
drbdpair_request_seconds_bucket{command=\"write_zeroes\",le=\"1\"} 0
drbdpair_request_seconds_bucket{command=\"write_zeroes\",le=\"2.5\"} 0
drbdpair_request_seconds_bucket{command=\"write_zeroes\",le=\"+Inf\"} 0
drbdpair_request_seconds_sum{command=\"write_zeroes\"} 0.000000
drbdpair_request_seconds_count{command=\"write_zeroes\"} 0
# HELP drbdpair_start_info What the server began after.
# TYPE drbdpair_start_info gauge
drbdpair_start_info{after=\"killed\"} 1
# HELP drbdpair_start_to_copy_bytes Amount of data that the server had to copy when it began; in bytes.
# TYPE drbdpair_start_to_copy_bytes gauge
drbdpair_start_to_copy_bytes 16384
# HELP drbdpair_resync_running Whether a resync runs.
# TYPE drbdpair_resync_running gauge
drbdpair_resync_running 1
# HELP drbdpair_resync_left_bytes Amount of data that the resync has still to copy; in bytes.
# TYPE drbdpair_resync_left_bytes gauge
drbdpair_resync_left_bytes 12288
# HELP drbdpair_resync_bytes_per_second Bytes that the resync has copied in a second.
# TYPE drbdpair_resync_bytes_per_second gauge
drbdpair_resync_bytes_per_second 2048
# HELP drbdpair_resync_left_seconds Seconds until the resync is done at that rate.
# TYPE drbdpair_resync_left_seconds gauge
drbdpair_resync_left_seconds 6
";

/// The end of the metrics while no resync runs.
const NO_RESYNC: &str = "\
# HELP drbdpair_resync_running Whether a resync runs.
# TYPE drbdpair_resync_running gauge
drbdpair_resync_running 0
";

/// A source that has this report, or none.
#[derive(Clone, Copy)]
struct Held<'a>(Option<&'a StatusReport>);

impl ReportSource for Held<'_> {
    fn report(&self) -> Option<StatusReport> {
        self.0.copied()
    }

    fn name(&self) -> Option<&str> {
        Some("r<0>")
    }

    fn map(&self) -> Option<io::Result<DeviceMap>> {
        None
    }
}

/// Returns the answer to a client that asks this, with these further headers.
fn answer_to(
    rt: &(impl Abort + AllocGlobal + RandomSource),
    asked: &str,
    headers: &str,
    report: Option<&StatusReport>,
) -> Vec<u8> {
    let alloc = rt.alloc();
    let request = format!(in alloc; "{asked} HTTP/1.1\r\nHost: localhost\r\n{headers}\r\n");
    let request = request.expect(rt, "memory");
    let keys = RandomState::new(rt).expect(rt, "keys");
    let mut reader = request.as_bytes();
    let mut writer = Vec::new(alloc);
    answer_one(alloc, keys, Held(report), &mut reader, &mut writer).expect(rt, "an answer");
    writer
}

/// Checks that a client that asks this gets this status and this body.
fn check_answer(
    rt: &(impl Abort + AllocGlobal + RandomSource),
    asked: &str,
    report: Option<&StatusReport>,
    (status, body): (&str, &str),
) {
    let body = format!(in rt.alloc(); "\r\n\r\n{body}").expect(rt, "memory");
    let writer = answer_to(rt, asked, "", report);
    let answer = writer.as_slice();
    assert!(rt; answer.starts_with(status.as_bytes()), "{asked}");
    assert!(rt; answer.ends_with(body.as_bytes()), "{asked}");
}

/// Returns the report of a resync that has copied one block in two seconds, after a kill.
fn resync_report() -> StatusReport {
    let Progress { primary, secondary } = resync_progress();
    StatusReport {
        primary,
        secondary,
        blocks: 5,
        start: ServerStart {
            after: StartedAfter::Kill,
            to_copy: 4,
        },
        resync: Some(Resync {
            left: 3,
            all: 4,
            copied: 1,
            elapsed_ms: 2000,
        }),
        is_peer_failed: false,
        clients: 2,
        receipts: ReceiptCounts {
            linked: 2,
            alone: 1,
        },
        latencies: Latencies {
            write: three_writes(),
            ..Latencies::NONE
        },
        local_metadata: MetadataWrites {
            activity_log: 7,
            bitmap: 5,
        },
        peer_metadata: MetadataWrites::NONE,
    }
}

// Returns the latency of writes that took 400, 400,000 and 1,100,000 microseconds.
fn three_writes() -> CommandLatency {
    CommandLatency {
        within: [0, 0, 1, 1, 1, 1, 1, 1, 1, 1, 1, 2, 2, 3],
        count: 3,
        microseconds: 1_500_400,
    }
}

/// A browser gets a document at `/`, with each word and number of the report, and what they mean; other clients get the lines.
#[test]
fn a_browser_gets_a_document(rt: HostRuntime) {
    let report = resync_report();
    let accepts = "Accept: text/html,application/xhtml+xml;q=0.9,*/*;q=0.8\r\n";
    let answer = answer_to(&rt, "GET /", accepts, Some(&report));
    let text = str::from_utf8(answer.as_slice()).unwrap_or("");
    for part in [
        "HTTP/1.1 200 OK\r\n",
        "\r\ncontent-type: text/html; charset=utf-8\r\n",
        "\r\n\r\n<!DOCTYPE html>\n",
        "<title>drbdpair r&lt;0&gt;</title>\n",
        "<h1>drbdpair r&lt;0&gt;</h1>",
        "<p class=\"now busy\" data-state=\"copying\">Blocks are being copied",
        "data-state=\"alike\" hidden>",
        "data-key=\"primary.connection\">SyncSource</td>",
        "data-key=\"primary.out_of_sync_kib\">12</td>",
        "data-key=\"secondary.is_consistent\">No</td>",
        "data-key=\"resync.kib_per_second\">2</span>",
        "data-word=\"killed\">The last server was killed.</span>",
        "data-word=\"clean\" hidden>",
        "<p>No metadata is kept, so there is no map.</p>",
    ] {
        assert!(rt; text.contains(part), "{part}");
    }
    assert!(rt; text.ends_with("</html>\n"));
    let other = answer_to(&rt, "GET /", "Accept: */*\r\n", Some(&report));
    assert!(rt; other.as_slice().ends_with(LINES.as_bytes()));
}

#[test]
fn a_client_is_answered(rt: HostRuntime) {
    let report = resync_report();
    let cases: [(&str, &str, &str); 6] = [
        ("GET /", "HTTP/1.1 200 OK", LINES),
        ("GET /map.json", "HTTP/1.1 200 OK", "null"),
        ("GET /status.json", "HTTP/1.1 200 OK", JSON),
        ("GET /metrics", "HTTP/1.1 200 OK", METRICS),
        (
            "GET /else",
            "HTTP/1.1 404 Not Found",
            "there is no such page: this server has /, /status.json, /map.json and /metrics\n",
        ),
        ("DELETE /", "HTTP/1.1 405 Method Not Allowed", ""),
    ];
    for (asked, status, body) in cases {
        check_answer(&rt, asked, Some(&report), (status, body));
    }
    let none = (
        "HTTP/1.1 503 Service Unavailable",
        "no report within two seconds: the images are compared, a session gives way to the next, or a disk does not answer\n",
    );
    check_answer(&rt, "GET /", None, none);
}

#[test]
fn a_client_is_told_that_the_peer_is_left_out(rt: HostRuntime) {
    let Progress { primary, secondary } = resync_progress();
    let report = StatusReport {
        primary,
        secondary,
        blocks: 5,
        start: ServerStart {
            after: StartedAfter::NoMetadata,
            to_copy: 0,
        },
        resync: None,
        is_peer_failed: true,
        clients: 0,
        receipts: ReceiptCounts {
            linked: 0,
            alone: 0,
        },
        latencies: Latencies::NONE,
        local_metadata: MetadataWrites::NONE,
        peer_metadata: MetadataWrites::NONE,
    };
    let ok = "HTTP/1.1 200 OK";
    check_answer(&rt, "GET /", Some(&report), (ok, LEFT_OUT));
    check_answer(&rt, "GET /status.json", Some(&report), (ok, LEFT_OUT_JSON));
    let answer = answer_to(&rt, "GET /metrics", "", Some(&report));
    assert!(rt; answer.as_slice().ends_with(NO_RESYNC.as_bytes()));
}

/// A map has a cell for each extent, or of a large device for some of them, and a cell is what the worst of them is.
#[test]
fn a_map_has_its_cells(rt: HostRuntime) {
    let mut map = DeviceMap::new(rt.alloc(), 4, true);
    for (is_active, is_marked) in [(false, false), (true, false), (false, true), (true, true)] {
        map.note(CellState::of_extent(is_active, is_marked))
            .expect(&rt, "memory");
    }
    let json = map.json(rt.alloc()).expect(&rt, "memory");
    assert_eq!(rt;
        json.as_str(),
        "{\"extents\":4,\"extents_in_cell\":1,\"active\":1,\"marked\":2,\"marks_read\":true,\"cells\":\".amm\"}"
    );
    let mut map = DeviceMap::new(rt.alloc(), 1025, false);
    for extent in 0..1025 {
        map.note(CellState::of_extent(extent == 1 || extent == 1024, false))
            .expect(&rt, "memory");
    }
    let json = map.json(rt.alloc()).expect(&rt, "memory");
    assert!(rt;
        json.as_str().starts_with(
            "{\"extents\":1025,\"extents_in_cell\":2,\"active\":2,\"marked\":0,\"marks_read\":false,\"cells\":\"a..."
        )
    );
    assert!(rt; json.as_str().ends_with("...a\"}"));
}
