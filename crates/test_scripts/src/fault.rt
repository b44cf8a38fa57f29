//! Why a script is not run.
use std::{fmt, io};

/// Why a script is not run, with its name.
#[derive(Drop)]
pub(crate) enum ScriptFault<'a> {
    /// The name is empty, begins with a dot or has a slash.
    NotPlain(&'a str),
    /// The file of this name with this ending cannot be read.
    Unread(&'a str, &'static str, io::Error),
    /// The file `NAME.status` has no number from 0 to 255.
    NoStatus(&'a str),
}

impl fmt::Display for ScriptFault<'_> {
    fn fmt<W: fmt::Write>(&self, f: &mut fmt::Formatter<W>) -> fmt::Result {
        match self {
            ScriptFault::NotPlain(name) => write!(f, "{name:?}: not a plain name"),
            ScriptFault::Unread(name, ending, error) => {
                write!(f, "{name}: {name}.{ending} could not be read: {error}")
            }
            ScriptFault::NoStatus(name) => {
                write!(f, "{name}: {name}.status has no number from 0 to 255")
            }
        }
    }
}
