//! The version of the program, and the commit that it was built from.
use program_values::{NO_COMMIT, Status, version_text};
use std::io::{ErrorKind, Write};
use std::path::Path;
use std::rt::Files;
use std::{env, fs, io};

/// Where a package names the commit, from the folder above the program's.
const COMMIT_FILE: &str = "lib/drbdpair/commit";

/// Prints the version, the commit and the id of the logic. The commit is known of a program that a package has installed, which put the
/// file `lib/drbdpair/commit` beside the program's folder. Returns `Done`, or `Failed` if the output failed or there was no memory.
pub(crate) fn print_version<H: Files + AllocGlobal, W: Write, E: Write>(
    rt: &H,
    out: &mut W,
    err: &mut E,
) -> Status {
    match write_version(rt, out) {
        Ok(()) => Status::Done,
        Err(fault) => {
            let _ = writeln!(err, "the output could not be written: {fault}");
            Status::Failed
        }
    }
}

// Writes the version.
fn write_version<H: Files + AllocGlobal, W: Write>(rt: &H, out: &mut W) -> io::Result<()> {
    let found = match env::current_exe(rt) {
        Ok(program) => commit_beside(rt, program.as_path())?,
        Err(_) => None,
    };
    let commit = found.as_ref().map_or(NO_COMMIT, |text| text.trim());
    out.write_all(version_text(rt.alloc(), commit)?.as_bytes())
}

/// Returns what a package says of the commit of the program at this path, or `None` if it is not from one. An error if the file is there and
/// cannot be read.
pub(crate) fn commit_beside<H: Files + AllocGlobal>(
    rt: &H,
    program: Path<'_>,
) -> io::Result<Option<String>> {
    let Some(folder) = program.parent().and_then(|folder| folder.parent()) else {
        return Ok(None);
    };
    match fs::read_to_string(rt, folder.join(rt.alloc(), COMMIT_FILE)?) {
        Ok(text) => Ok(Some(text)),
        Err(error) if error.kind() == ErrorKind::NotFound => Ok(None),
        Err(error) => Err(error),
    }
}
