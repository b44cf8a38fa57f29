//! Functions that run a script and judge what it prints.
use script::script_on;
use std::io::Read;
use std::process::Abort;

/// Runs a script, and checks its standard output, its standard error and its status.
pub(crate) fn prints(
    rt: &(impl Abort + AllocGlobal),
    script: &str,
    out: &str,
    err: &str,
    status: u8,
) {
    let alloc = rt.alloc();
    let mut written = Vec::new(alloc);
    let mut errors = Vec::new(alloc);
    let mut input = script.as_bytes();
    let answer = script_on(alloc, &mut input, &mut written, &mut errors);
    assert_eq!(rt; (text(&written), text(&errors), answer), (out, err, status));
}

/// Checks that standard error has one line.
pub(crate) fn check_one_line(rt: &impl Abort, errors: &[u8]) {
    let ends = errors.iter().filter(|byte| **byte == b'\n').count();
    assert_eq!(rt; ends, 1);
    assert_eq!(rt; errors.last(), Some(&b'\n'));
}

/// Checks that the input is no script: nothing is printed, and one line on standard error says so.
pub(crate) fn check_no_script(rt: &(impl Abort + AllocGlobal), input: &mut impl Read) {
    let alloc = rt.alloc();
    let mut written = Vec::new(alloc);
    let mut errors = Vec::new(alloc);
    let status = script_on(alloc, input, &mut written, &mut errors);
    assert_eq!(rt; status, 1);
    assert!(rt; written.is_empty());
    check_one_line(rt, &errors);
}

/// Returns the text that was written, so that a failed comparison shows lines.
fn text(written: &[u8]) -> &str {
    std::str::from_utf8(written).unwrap_or("what was written is not UTF-8")
}

/// Joins these parts into a text.
pub(crate) fn joined(rt: &(impl Abort + AllocGlobal), parts: &[&str]) -> String {
    let mut text = String::new(rt.alloc());
    for part in parts {
        text.push_str(part).expect(rt, "memory");
    }
    text
}

/// Makes a script of one line: `pair` with some keys.
pub(crate) fn pair_line(rt: &(impl Abort + AllocGlobal), keys: &str) -> String {
    joined(rt, &["pair ", keys, "\n"])
}

/// Checks what a connection of a pair with these identifiers prints for two new words.
pub(crate) fn decides(rt: &(impl Abort + AllocGlobal), identifiers: &str, answer: &str) {
    let script = joined(rt, &["pair ", identifiers, "\nconnect 97 98\n"]);
    let out = joined(rt, &["pair ok\nconnect ", answer, "\n"]);
    prints(rt, script.as_str(), out.as_str(), "", 0);
}
