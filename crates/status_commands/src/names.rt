//! The names of the servers that have a status socket.
use program_values::ServerName;
use std::alloc::Global;
use std::io::ErrorKind;
use std::os::unix::fs::FileTypeExt;
use std::rt::Files;
use std::{fs, io};

/// The most entries of the folder that are looked at.
const MOST_ENTRIES: usize = 10_000;

/// Returns the names of the servers that have a status socket in a folder of theirs below this one, in their order; none if there is no
/// such folder.
pub(crate) fn names_in<R: Files + AllocGlobal + Clone + Drop>(
    rt: &R,
    run_folder: &str,
) -> io::Result<Vec<String>> {
    let alloc: Global = rt.alloc();
    let mut names = Vec::new(alloc);
    let entries = match fs::read_dir(rt, run_folder) {
        Ok(entries) => entries,
        Err(error) if error.kind() == ErrorKind::NotFound => return Ok(names),
        Err(error) => return Err(error),
    };
    for entry in entries.take(MOST_ENTRIES) {
        // An entry whose name is not UTF-8 is no server's.
        let Ok(entry) = entry else {
            continue;
        };
        let name = entry.file_name();
        if ServerName::is_name(name) && has_socket(rt, run_folder, name)? {
            names.push(String::from_str(alloc, name)?)?;
        }
    }
    names.sort_unstable();
    Ok(names)
}

// Returns whether the server of this name has a status socket. An error if its folder may not be searched: there may be one.
fn has_socket<R: Files + AllocGlobal>(rt: &R, run_folder: &str, name: &str) -> io::Result<bool> {
    let path = format!(in rt.alloc(); "{run_folder}/{name}/status")?;
    match fs::metadata(rt, path.as_str()) {
        Ok(found) => Ok(found.file_type().is_socket()),
        Err(error) if error.kind() == ErrorKind::PermissionDenied => Err(error),
        Err(_) => Ok(false),
    }
}
