//! Tests of lines of a script that are commands, and of lines that stop it.
use crate::scripts::run::{check_no_script, joined, prints};
use std::process::Abort;

/// Checks that after a pair none of these lines is a command.
fn check_no_commands(rt: &(impl Abort + AllocGlobal), lines: &[&str]) {
    for line in lines {
        let script = joined(rt, &["pair\n", line, "\nmarks\n"]);
        prints(
            rt,
            script.as_str(),
            "pair ok\n",
            "line 2: not a command\n",
            2,
        );
    }
}

#[test]
fn a_thousand_empty_lines_are_counted(rt: HostRuntime) {
    let mut script = String::new(rt.alloc());
    for _ in 0..1000 {
        script.push_str("\n").expect(&rt, "memory");
    }
    script.push_str("marks").expect(&rt, "memory");
    prints(&rt, script.as_str(), "", "line 1001: no pair\n", 2);
}

/// Each command but `pair`.
const COMMANDS: [&str; 20] = [
    "open 5 7",
    "connect 5 7",
    "submit 0 1 AA",
    "local 1",
    "localfail 1 0",
    "send",
    "receive",
    "ackout",
    "ackin",
    "peer 0",
    "peerfail 0 0",
    "resync",
    "resyncfail",
    "close primary",
    "close secondary",
    "marks",
    "diff",
    "tuples",
    "read primary 0",
    "status",
];

/// Checks that after these lines each command stops the script, which has a pair only later.
fn check_no_pair(rt: &(impl Abort + AllocGlobal), before: &str, out: &str, err: &str) {
    for command in COMMANDS {
        let script = joined(rt, &[before, command, "\npair\n"]);
        prints(rt, script.as_str(), out, err, 2);
    }
}

#[test]
fn a_pair_comes_first(rt: HostRuntime) {
    check_no_pair(&rt, "#\n", "", "line 2: no pair\n");
    check_no_pair(
        &rt,
        "pair slots=0\n\n",
        "pair refused 15\n",
        "line 3: no pair\n",
    );
}

/// Lines whose words are not separated by one space.
const PARTED_OTHERWISE: &[&str] = &[
    " ",
    " # note",
    "sent",
    "Send",
    "SEND",
    "send ",
    " send",
    "send\t",
    "send\r",
    "send send",
    "send 1",
    "local  1",
    "local 1 ",
    "local\t1",
    "submit 0  1 AA",
    "submit 0 1  AA",
    "\0",
    "größe",
    "send\u{a0}",
];

/// Commands with other words than theirs.
const OTHER_WORDS: &[&str] = &[
    "open",
    "open 5",
    "open 5 7 9",
    "connect",
    "connect 5",
    "connect 5 7 9",
    "submit",
    "submit 0",
    "submit 0 1",
    "submit 0 1 AA 0",
    "local",
    "local 1 1",
    "localfail",
    "localfail 1",
    "localfail 1 1 1",
    "peer",
    "peer 0 0",
    "peerfail",
    "peerfail 0",
    "peerfail 0 0 0",
    "receive 0",
    "ackout 0",
    "ackin 0",
    "resync 0",
    "resyncfail 0",
    "close",
    "close both",
    "close primary secondary",
    "close Primary",
    "marks 0",
    "diff 0",
    "tuples 0",
    "read",
    "read 0",
    "read primary",
    "read both 0",
    "read primary 0 0",
    "status primary",
];

/// Numbers that are not decimal, have a sign, or have more than 64 bits.
const OTHER_NUMBERS: &[&str] = &[
    "local x",
    "local +1",
    "local -1",
    "local 1.0",
    "local 0x1",
    "local 1a",
    "local 1_000",
    "local 18446744073709551616",
    "local 18446744073709551617",
    "local 99999999999999999999",
    "local 100000000000000000000000000000000000000001",
    "localfail 18446744073709551616 0",
    "localfail 1 18446744073709551616",
    "peer 18446744073709551616",
    "peerfail 0 -1",
    "peerfail 0 18446744073709551616",
    "peerfail 18446744073709551616 0",
    "open 18446744073709551616 1",
    "open 5 18446744073709551616",
    "connect 18446744073709551616 7",
    "connect 5 18446744073709551616",
    "submit 18446744073709551616 1 AA",
    "submit 0 18446744073709551616 AA",
    "submit 0 18446744073709551617 AA",
    "submit -1 1 AA",
    "read primary 18446744073709551616",
    "read secondary -1",
];

/// Commands that submit more than 64 blocks.
const TOO_MANY_BLOCKS: &[&str] = &[
    "submit 0 65 AA",
    "submit 0 256 AA",
    "submit 0 257 AA",
    "submit 0 4294967297 AA",
    "submit 0 18446744073709551615 AA",
];

/// Bytes that are not two hexadecimal digits.
const OTHER_BYTES: &[&str] = &[
    "submit 0 1 ",
    "submit 0 1 A",
    "submit 0 1 AAA",
    "submit 0 1 0xA",
    "submit 0 1 G0",
    "submit 0 1 0g",
    "submit 0 1 +1",
    "submit 0 1 @0",
    "submit 0 1 0`",
    "submit 0 1 :0",
    "submit 0 1 0/",
    "submit 0 1 é",
];

#[test]
fn these_are_no_commands(rt: HostRuntime) {
    for lines in [
        PARTED_OTHERWISE,
        OTHER_WORDS,
        OTHER_NUMBERS,
        TOO_MANY_BLOCKS,
        OTHER_BYTES,
    ] {
        check_no_commands(&rt, lines);
    }
}

/// Bytes that are not text.
const NO_TEXTS: &[&[u8]] = &[
    b"\xFF",
    b"pair\nmarks\n\xFF\n",
    b"pair\nsent\n# \x80\n",
    b"# \xC0\x80\n",
    b"# \xED\xA0\x80\n",
    b"pair\n# \xC3",
];

#[test]
fn a_script_is_text(rt: HostRuntime) {
    for script in NO_TEXTS {
        let mut input = *script;
        check_no_script(&rt, &mut input);
    }
}
