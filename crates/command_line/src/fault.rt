//! Faults of a command line.
use clap::Error;
use clap::error::ErrorKind;
use program_values::Status;
use std::alloc::AllocError;
use std::io::Write;

/// Why a command line was not accepted.
#[derive(Drop)]
pub enum UsageFault<'a> {
    /// They ask for help, which is then in the error, or they are wrong.
    Words(Error),
    /// A server is to listen at this, which is no numeric address with a port and no path of a socket.
    Address(&'a str),
    /// A status page is to be at this, which is no port and no path of a socket.
    Page(&'a str),
    /// This is no name of a server.
    Name(&'a str),
    /// Both disks are to have this image.
    SharedImage(&'a str),
}

impl UsageFault<'_> {
    /// Prints help on `out` if it was asked for, and else what is wrong with the words on `err`. Returns how
    /// the program then ends: `Done` for it, `Failed` if they could not be written or there was no memory, and else
    /// `Misused`.
    pub fn print<W: Write, E: Write>(&self, out: &mut W, err: &mut E) -> Status {
        match self {
            UsageFault::Words(error) => print_words(error, out, err),
            UsageFault::Address(address) => {
                let _ = writeln!(
                    err,
                    "error: --listen {address}: give an IP address and a port, as in 127.0.0.1:10809, or unix:PATH"
                );
                Status::Misused
            }
            UsageFault::Page(address) => {
                let _ = writeln!(
                    err,
                    "error: --status {address}: give a port of 127.0.0.1, as in 8080, or unix:PATH"
                );
                Status::Misused
            }
            UsageFault::Name(name) => {
                let _ = writeln!(
                    err,
                    "error: {name} is no name of a server: give 1 to 64 letters, digits, -, _ and ., the first a letter or a digit, and not all"
                );
                Status::Misused
            }
            UsageFault::SharedImage(image) => {
                let _ = writeln!(
                    err,
                    "error: --local and --peer are both {image}: give two images"
                );
                Status::Misused
            }
        }
    }
}

impl From<AllocError> for UsageFault<'_> {
    fn from(fault: AllocError) -> Self {
        UsageFault::Words(Error::from(fault))
    }
}

fn print_words<W: Write, E: Write>(error: &Error, out: &mut W, err: &mut E) -> Status {
    if !error.use_stderr() {
        return match write!(out, "{error}") {
            Ok(()) => Status::Done,
            Err(fault) => {
                let _ = writeln!(err, "the output could not be written: {fault}");
                Status::Failed
            }
        };
    }
    let _ = write!(err, "{error}");
    match error.kind() {
        ErrorKind::OutOfMemory => Status::Failed,
        _ => Status::Misused,
    }
}
