//! Tests that output is written in large pieces, and all of it.
use script::script_on;
use std::io::{self, Write};
use std::process::Abort;

/// An output that counts how often it is written to.
#[derive(Drop)]
struct Output {
    bytes: Vec<u8>,
    calls: u32,
}

impl Write for Output {
    fn write(&mut self, bytes: &[u8]) -> io::Result<usize> {
        self.calls = self.calls.saturating_add(1);
        self.bytes.write(bytes)
    }

    fn flush(&mut self) -> io::Result<()> {
        Ok(())
    }
}

/// Makes a script: a pair, 300 commands that are refused, and a last line.
fn long_script(rt: &(impl Abort + AllocGlobal), last: &str) -> String {
    let mut script = String::from_str(rt.alloc(), "pair\n").expect(rt, "memory");
    for _ in 0..300 {
        script.push_str("send\n").expect(rt, "memory");
    }
    script.push_str(last).expect(rt, "memory");
    script
}

/// Runs the script, and checks that it ends with this status, and that all 301 lines are printed in this many calls.
fn check_printed(rt: &(impl Abort + AllocGlobal), script: &str, wanted: u8, calls: u32) {
    let alloc = rt.alloc();
    let mut out = Output {
        bytes: Vec::new(alloc),
        calls: 0,
    };
    let mut errors = Vec::new(alloc);
    let mut input = script.as_bytes();
    let status = script_on(alloc, &mut input, &mut out, &mut errors);
    let lines = out.bytes.iter().filter(|byte| **byte == b'\n').count();
    assert_eq!(rt; (status, lines, out.calls), (wanted, 301, calls));
    assert!(rt; out.bytes.ends_with(b"send refused 12\n"));
}

#[test]
fn output_is_written_in_large_pieces(rt: HostRuntime) {
    // The last line stops the second script. All that was printed before is there.
    for (last, wanted, calls) in [("", 0, 1), ("sent\n", 2, 1)] {
        let script = long_script(&rt, last);
        check_printed(&rt, script.as_str(), wanted, calls);
    }
}
