//! `drbdpair` mirrors two disks after DRBD 8.4: serves them to clients of the network block device protocol (`serve`), tests
//! them (`run`, `tcp`), or steps them by a script (the default).
#![tactic(auto)]

mod program;
mod standard_descriptors;
#[cfg(test)]
mod tests;
mod version;

use program_values::Status;
use std::io::{ErrorKind, Write};
use std::process::ExitCode;
use std::{env, io};

fn main(rt: HostRuntime) -> io::Result<ExitCode> {
    let _held = standard_descriptors::hold(&rt);
    let words = match env::args(&rt) {
        Ok(words) => words.collect::<Vec<String>>(rt.alloc())?,
        Err(error) if error.kind() == ErrorKind::InvalidData => {
            let _ = writeln!(rt.stderr(), "error: an argument is not UTF-8");
            return Ok(ExitCode::from(Status::Misused.code()));
        }
        Err(error) => return Err(error),
    };
    let status = program::run_on(
        &rt,
        words.as_slice(),
        rt.stdin(),
        &mut rt.stdout(),
        &mut rt.stderr(),
    );
    Ok(ExitCode::from(status))
}
