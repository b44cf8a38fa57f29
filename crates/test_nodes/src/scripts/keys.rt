//! Tests of the keys of a pair, and of their values.
use crate::scripts::run::{pair_line, prints};
use std::process::Abort;

/// Checks that after `pair` none of these are keys.
fn check_no_keys(rt: &(impl Abort + AllocGlobal), keys: &[&str]) {
    for words in keys {
        let script = pair_line(rt, words);
        prints(rt, script.as_str(), "", "line 1: not a command\n", 2);
    }
}

/// Checks that a pair with these keys is refused.
fn check_refused(rt: &(impl Abort + AllocGlobal), keys: &[&str]) {
    for words in keys {
        let script = pair_line(rt, words);
        prints(rt, script.as_str(), "pair refused 15\n", "", 0);
    }
}

#[test]
fn settings_have_ranges(rt: HostRuntime) {
    check_refused(
        &rt,
        &[
            "blocks=0",
            "blocks=262145",
            "blocks=4294967304",
            "blocks=18446744073709551615",
            "max_epoch=0",
            "max_epoch=20001",
            "slots=0",
            "slots=1025",
            "backlog=0",
            "backlog=4097",
            "link=0",
            "link=1025",
            "pending=0",
            "pending=4097",
            "pending=4294967297",
            "own=0,0,0,0",
            "own=0,1,2,3",
            "protocol=A blocks=8 own=0,0,0,0 peer=0,0,0,0",
        ],
    );
}

#[test]
fn a_key_stands_once(rt: HostRuntime) {
    check_no_keys(
        &rt,
        &[
            "protocol=A protocol=A",
            "blocks=8 blocks=8",
            "max_epoch=1 blocks=8 max_epoch=2",
            "slots=1 slots=2",
            "backlog=1 backlog=2",
            "link=1 link=2",
            "pending=1 pending=2",
            "own=1,0,0,0 own=1,0,0,0",
            "peer=1,0,0,0 own=1,0,0,0 peer=2,0,0,0",
            "blocks=0 blocks=8",
        ],
    );
}

#[test]
fn a_key_has_a_name_and_a_value(rt: HostRuntime) {
    check_no_keys(
        &rt,
        &[
            "",
            "blocks",
            "blocks=",
            "=8",
            "=",
            "blocks=x",
            "blocks=-8",
            "blocks=+8",
            "blocks=8=8",
            "blocks=0x8",
            "blocks=18446744073709551616",
            "Blocks=8",
            "block=8",
            "blocks=8 ",
            " blocks=8",
            "blocks=8  slots=1",
            "blocks=8,slots=1",
            "blocks=8 8",
            "protocol=",
            "protocol=AB",
            "protocol=D",
            "protocol=c",
            "protocol=1",
            "own=1",
            "own=1,0,0",
            "own=1,0,0,0,0",
            "own=1,0,0,",
            "own=,0,0,0",
            "own=1,0,0,x",
            "own=1,0,+0,0",
            "own=1,0,0,-1",
            "own=1, 0,0,0",
            "peer=18446744073709551616,0,0,0",
        ],
    );
}
