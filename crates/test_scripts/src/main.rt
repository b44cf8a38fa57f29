//! `test_scripts` runs scripts from files and compares what they print with files. To add a script, write its
//! commands into `data/NAME.script` and the lines that it is to print into `data/NAME.out`. Add the line `NAME` to
//! `stdin` and the line `NAME ok` to `stdout`, and raise the count at the end of `stdout`. A script that is to fail
//! also has `data/NAME.err`, its standard error, and `data/NAME.status`, its exit status.
//!
//! The files of the scripts `differs_..` are wrong on purpose, and after them come a name without files and names that
//! are not plain: they show how each difference and each fault is reported. So the stored run ends with the status 1.
#![tactic(auto)]

mod difference;
mod fault;
mod outcome;
mod program;
mod stop;
mod worked_script;

use std::process::ExitCode;

fn main(rt: HostRuntime) -> ExitCode {
    let status = program::run_on(&rt, &mut rt.stdin(), &mut rt.stdout(), &mut rt.stderr());
    ExitCode::from(status)
}
