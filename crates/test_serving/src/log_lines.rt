//! Tests of the lines of the log. The dates are those of `date --utc --iso-8601=seconds`, and the first is the example of RFC 3339; the
//! priorities are those of sd-daemon(3).
use server_log::{Copied, Event, Style, bar, line};

const COPIED: Copied = Copied {
    percent: 42,
    left_kib: 1234,
    kib_per_second: 100,
    seconds_left: 13,
};

#[test]
fn a_line_has_its_date(rt: HostRuntime) {
    let cases: [(u64, Event, &str); 6] = [
        (
            482_196_050,
            Event::Connected,
            "1985-04-12T23:20:50Z connected\n",
        ),
        (0, Event::Lost, "1970-01-01T00:00:00Z lost\n"),
        (
            951_782_399,
            Event::ResyncBegun(5120),
            "2000-02-28T23:59:59Z resync-begun 5120 KiB to copy\n",
        ),
        (
            951_782_400,
            Event::ResyncDone(12),
            "2000-02-29T00:00:00Z resync-done after 12 s\n",
        ),
        (
            4_107_542_400,
            Event::Resyncing(COPIED),
            "2100-03-01T00:00:00Z resyncing 42% done, 1234 KiB left, 100 KiB/s, 13 s to go\n",
        ),
        (u64::MAX, Event::Stopped, "9999-12-31T23:59:59Z stopped\n"),
    ];
    for (seconds, event, wanted) in cases {
        for style in [Style::Dated, Style::Barred] {
            let line = line(rt.alloc(), style, seconds, event).expect(&rt, "memory");
            assert_eq!(rt; line.as_str(), wanted, "{seconds}");
        }
    }
}

#[test]
fn a_line_has_its_priority(rt: HostRuntime) {
    let cases: [(Event, &str); 4] = [
        (Event::Connected, "<6>connected\n"),
        (Event::Lost, "<4>lost\n"),
        (
            Event::PeerSyncFailed,
            "<3>disk-failed a sync of the peer's image: the link stays down until the server ends\n",
        ),
        (
            Event::MetadataFailed,
            "<3>disk-failed a write of a metadata file: the link stays down until the server ends\n",
        ),
    ];
    for (event, wanted) in cases {
        let line = line(rt.alloc(), Style::Graded, 0, event).expect(&rt, "memory");
        assert_eq!(rt; line.as_str(), wanted, "{wanted}");
    }
}

/// A bar is written over the one before it, and over what is left of a longer one.
#[test]
fn a_copy_has_a_bar(rt: HostRuntime) {
    let cases: [(u64, &str); 5] = [
        (0, "\r[..........] 0% done, "),
        (9, "\r[..........] 9% done, "),
        (42, "\r[####......] 42% done, "),
        (99, "\r[#########.] 99% done, "),
        (100, "\r[##########] 100% done, "),
    ];
    for (percent, wanted) in cases {
        let copied = Copied { percent, ..COPIED };
        let bar = bar(rt.alloc(), copied).expect(&rt, "memory");
        assert!(rt; bar.as_str().starts_with(wanted), "{percent}");
        assert!(rt;
            bar.as_str()
                .ends_with("1234 KiB left, 100 KiB/s, 13 s to go        "),
            "{percent}"
        );
    }
}
