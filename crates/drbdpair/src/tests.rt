//! Tests of the program's words.
mod images;

use crate::program::run_on;
use crate::version::commit_beside;
use session_run::Host;
use std::env::Env;
use std::fs::File;
use std::io::{IsTerminal, Write};
use std::net::{Net, TcpListener, TcpStream};
use std::path::Path;
use std::process::Abort;
use std::random::RandomSource;
use std::rt::Files;
use std::{fs, io};

/// What a program that is from no package says of its version.
const VERSION: &str = "\
drbdpair 0.1.0
commit: not known (not from a package)
logic: dac8208d650f15bf
";

const ONE_WRITE: &str = "\
pair
connect 5 7
submit 2 1 AA
local 1
send
receive
peer 0
ackout
ackin
tuples
status
";

const ONE_WRITE_OUT: &str = "\
pair ok
connect ok NoSync
submit ok 1
local ok
send ok DATA 0
receive ok DATA 0
peer ok
ackout ok WRITE_ACK
ackin ok WRITE_ACK completed 1 barrier 1
tuples 1,0,0,0 1,0,0,0
cs:Connected ro:Primary/Secondary ds:UpToDate/UpToDate pr:C pe:0 ap:0 ep:1 oos:0
cs:Connected ro:Secondary/Primary ds:UpToDate/UpToDate pr:C pending:0 use:Yes whole:0
";

/// A standard error that keeps what is written, and is not a terminal.
#[derive(Drop)]
struct Said {
    bytes: Vec<u8>,
}

impl Write for Said {
    fn write(&mut self, bytes: &[u8]) -> io::Result<usize> {
        self.bytes.write(bytes)
    }

    fn flush(&mut self) -> io::Result<()> {
        Ok(())
    }
}

impl IsTerminal for Said {
    fn is_terminal(&self) -> bool {
        false
    }
}

/// The program's exit status, standard output and standard error.
#[derive(Drop)]
struct Outcome {
    status: u8,
    written: Vec<u8>,
    said: Said,
}

/// Runs the program over these words, with this text on its standard input.
fn outcome_of<
    H: Host
        + Files<File = File>
        + Net<Listener = TcpListener, Stream = TcpStream>
        + RandomSource
        + Env,
>(rt: &H, words: &[&str], input: &'static str) -> Outcome {
    let mut written = Vec::new(rt.alloc());
    let mut said = Said {
        bytes: Vec::new(rt.alloc()),
    };
    let status = run_on(rt, words, input.as_bytes(), &mut written, &mut said);
    Outcome {
        status,
        written,
        said,
    }
}

/// Runs the program over these words with a script on its standard input. Checks what it writes and its exit status,
/// and that standard error is empty if that is 0, and only then.
fn runs<
    H: Abort
        + Host
        + Files<File = File>
        + Net<Listener = TcpListener, Stream = TcpStream>
        + RandomSource
        + Env,
>(rt: &H, words: &[&str], out: &str, status: u8) {
    let outcome = outcome_of(rt, words, ONE_WRITE);
    assert_eq!(rt; outcome.status, status);
    assert_eq!(rt; outcome.written.as_slice(), out.as_bytes());
    assert_eq!(rt; outcome.said.bytes.is_empty(), status == 0);
}

#[test]
fn words_choose_the_script(rt: HostRuntime) {
    runs(&rt, &["drbdpair"], ONE_WRITE_OUT, 0);
    runs(&rt, &["drbdpair", "script", "-"], ONE_WRITE_OUT, 0);
    runs(&rt, &["drbdpair", "script", "no/such/file"], "", 1);
    runs(&rt, &["drbdpair", "script"], "", 2);
    runs(&rt, &["drbdpair", "print"], "", 2);
}

/// A script is read from its file. If there is no such file, the program writes one line to standard error.
#[test]
fn a_file_is_run(rt: HostRuntime) {
    fs::write(&rt, "one_write", ONE_WRITE).expect(&rt, "a script");
    runs(&rt, &["drbdpair", "script", "one_write"], ONE_WRITE_OUT, 0);
    runs(&rt, &["drbdpair", "script", "one_write", "-"], "", 2);
    fs::remove_file(&rt, "one_write").expect(&rt, "a script");
    let outcome = outcome_of(&rt, &["drbdpair", "script", "one_write"], "");
    let lines = outcome
        .said
        .bytes
        .iter()
        .filter(|byte| **byte == b'\n')
        .count();
    assert_eq!(rt;
        (outcome.status, lines, outcome.written.is_empty()),
        (1, 1, true)
    );
}

/// Parts of the help: commands, keys, refusals, statuses.
const HELP: [&str; 8] = [
    "Usage: drbdpair",
    "\n  status               both nodes' status lines",
    "\n  protocol=C           A, B or C\n",
    "\n   1  not 1 to 32 whole blocks inside the device",
    "\n *20  the frame does not begin with the magic number\n",
    "\n  12  this end is closed, or the stream has not begun",
    "\n  36  an end is still open, or items are left to apply\n",
    "\nExit statuses: 0 done",
];

// Help is printed under the program's own name, whatever name it is called by.
#[test]
fn help_is_asked_for(rt: HostRuntime) {
    for words in [
        ["./program", "--help"].as_slice(),
        ["./program", "script", "--help"].as_slice(),
    ] {
        let outcome = outcome_of(&rt, words, "");
        assert_eq!(rt; (outcome.status, outcome.said.bytes.is_empty()), (0, true));
        let text = std::str::from_utf8(&outcome.written).unwrap_or("");
        for part in HELP {
            assert!(rt; text.contains(part), "{part}");
        }
    }
}

/// The version is printed under the program's own name, too; it is no option of a command.
#[test]
fn the_version_is_asked_for(rt: HostRuntime) {
    for flag in ["--version", "-V"] {
        runs(&rt, &["./program", flag], VERSION, 0);
        runs(&rt, &["./program", "serve", flag], "", 2);
    }
}

/// The commit of a program is what its package says, in a file of the folder above the program's.
#[test]
fn the_commit_is_the_packages(rt: HostRuntime) {
    let program = Path::new("packaged/sbin/drbdpair");
    let none = commit_beside(&rt, program).expect(&rt, "a look");
    assert!(rt; none.is_none());
    fs::create_dir_all(&rt, "packaged/lib/drbdpair").expect(&rt, "a folder");
    fs::write(&rt, "packaged/lib/drbdpair/commit", "0a1b2c\n").expect(&rt, "a file");
    let commit = commit_beside(&rt, program).expect(&rt, "a look");
    fs::remove_dir_all(&rt, "packaged").expect(&rt, "a folder");
    assert_eq!(rt; commit.as_ref().map(|text| text.as_str()), Some("0a1b2c\n"));
}

/// A session over sockets completes and settles all writes, under each protocol; `--cuts` is wrong usage for it.
#[test]
fn a_session_is_run_over_sockets(rt: HostRuntime) {
    let words = ["drbdpair", "tcp", "--writers", "4", "--writes", "50"];
    runs(&rt, &words, "completed 200\nsettled 200\nunmarked 0\n", 0);
    for protocol in ["A", "B", "C"] {
        for writers in ["1", "16"] {
            let words = [
                "drbdpair",
                "tcp",
                "--protocol",
                protocol,
                "--writers",
                writers,
                "--writes",
                "10",
            ];
            let out = match writers {
                "1" => "completed 10\nsettled 10\nunmarked 0\n",
                _ => "completed 160\nsettled 160\nunmarked 0\n",
            };
            runs(&rt, &words, out, 0);
        }
    }
    runs(&rt, &["drbdpair", "tcp", "--cuts", "1"], "", 2);
}

/// Writers are in threads of their own, and all writes are completed and settled, also if the link is cut.
#[test]
fn a_session_is_run(rt: HostRuntime) {
    let words = ["drbdpair", "run", "--writers", "4", "--writes", "50"];
    runs(&rt, &words, "completed 200\nsettled 200\nunmarked 0\n", 0);
    runs(
        &rt,
        &["drbdpair", "run"],
        "completed 20\nsettled 20\nunmarked 0\n",
        0,
    );
    let words = [
        "drbdpair",
        "run",
        "--writers",
        "4",
        "--writes",
        "1000",
        "--cuts",
        "20",
    ];
    runs(&rt, &words, "completed 4000\nsettled 4000\nunmarked 0\n", 0);
}

/// Protocols A and B, which complete a write before the peer's disk has it, settle all writes too.
#[test]
fn a_session_is_run_under_each_protocol(rt: HostRuntime) {
    for protocol in ["A", "B"] {
        let words = ["drbdpair", "run", "--protocol", protocol, "--blocks", "1"];
        runs(&rt, &words, "completed 20\nsettled 20\nunmarked 0\n", 0);
    }
}

/// Values outside their ranges, and one image for both disks, are wrong usage, before any file is read.
#[test]
fn a_run_has_ranges(rt: HostRuntime) {
    for (name, value) in [
        ("--writers", "17"),
        ("--writers", "0"),
        ("--writes", "10001"),
        ("--writes", "0"),
        ("--blocks", "262145"),
        ("--blocks", "0"),
        ("--cuts", "101"),
        ("--cuts", "x"),
        ("--protocol", "D"),
        ("--protocol", "c"),
    ] {
        runs(
            &rt,
            &["drbdpair", "run", "--local", "no/such/file", name, value],
            "",
            2,
        );
    }
    for command in ["run", "tcp", "serve"] {
        let words = ["drbdpair", command, "--local", "image", "--peer", "image"];
        runs(&rt, &words, "", 2);
    }
}

/// The status lines of both nodes are on standard error; standard output has only its three lines.
#[test]
fn status_lines_are_shown(rt: HostRuntime) {
    let outcome = outcome_of(&rt, &["drbdpair", "run", "--status"], "");
    assert_eq!(rt; outcome.status, 0);
    assert_eq!(rt;
        outcome.written.as_slice(),
        b"completed 20\nsettled 20\nunmarked 0\n".as_slice()
    );
    let text = str::from_utf8(outcome.said.bytes.as_slice()).unwrap_or("");
    assert!(rt;
        text.contains(
            "cs:StandAlone ro:Primary/Unknown ds:UpToDate/DUnknown pr:C pe:0 ap:0 ep:0 oos:0\n"
        )
    );
    assert!(rt;
        text.contains(
            "cs:StandAlone ro:Secondary/Unknown ds:Consistent/DUnknown pr:C pending:0 use:Yes"
        )
    );
}

/// Places at which no server can listen, and words that are no names, are wrong usage, before any file is read.
#[test]
fn places_and_names_have_their_forms(rt: HostRuntime) {
    for (option, value) in [
        ("--listen", "unix:"),
        ("--listen", "localhost:10809"),
        ("--listen", "/run/socket"),
        ("--status", "unix:"),
        ("--status", "0"),
        ("--status", "65536"),
        ("--status", "127.0.0.1"),
        ("--name", "all"),
        ("--name", ".."),
        ("--name", "a/b"),
        ("--name", ""),
    ] {
        let words = [
            "drbdpair",
            "serve",
            "--local",
            "no/such/file",
            "--peer",
            "no/other/file",
            "--listen",
            "127.0.0.1:10809",
            option,
            value,
        ];
        runs(&rt, &words, "", 2);
    }
}

/// The commands that ask servers say of each that does not answer, with a status of their own. All of none are an empty array.
#[test]
fn no_server_answers(rt: HostRuntime) {
    for command in ["status", "cstate", "dstate", "wait-sync", "wait-connect"] {
        runs(
            &rt,
            &["drbdpair", command, "r0", "--run-dir", "no/such"],
            "",
            10,
        );
        runs(&rt, &["drbdpair", command, "no/name"], "", 2);
        runs(&rt, &["drbdpair", command, "r0", "r1"], "", 2);
    }
    runs(&rt, &["drbdpair", "wait-sync"], "", 2);
    runs(&rt, &["drbdpair", "wait-sync", "all"], "", 2);
    runs(
        &rt,
        &["drbdpair", "wait-sync", "r0", "--wfc-timeout", "soon"],
        "",
        2,
    );
    let words = ["drbdpair", "status", "--json", "--run-dir", "no/such"];
    let outcome = outcome_of(&rt, &words, "");
    assert_eq!(rt;
        (outcome.status, outcome.written.as_slice()),
        (0, b"[]\n".as_slice())
    );
    assert!(rt;
        outcome
            .said
            .bytes
            .as_slice()
            .starts_with(b"# No server found in no/such.")
    );
}
