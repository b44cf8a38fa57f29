//! What the nodes of a session began with.
use ghost_log::LogName;
use std::marker::Brand;

/// What both nodes of a session started from, and the name of the log of what its callers are told. It has no bytes: only contracts
/// read it, and whoever calls a function with such a parameter picks it.
pub trait Beginning: LogName {
    ghost use Rattle.std.specs.Prelude.{Option};
    ghost use Rattle.model.specs.Theorems.{Opening};

    /// The opening; `None` if nothing is known of it.
    ghost opening: { Option Opening };
}

impl Beginning for Brand {
    ghost use Rattle.std.specs.Prelude.{None};

    ghost opening = { None };
}

/// The beginning of nodes whose opening is unknown.
pub struct Unknown;

impl LogName for Unknown {
    ghost name = { 0 };
}

impl Beginning for Unknown {
    ghost use Rattle.std.specs.Prelude.{None};

    ghost opening = { None };
}
