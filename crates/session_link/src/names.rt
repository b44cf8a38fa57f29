//! The name of a session: its link, and what its nodes start from.
ghost use Rattle.thread_link.specs.Names.{LinkName};

use ghost_log::LogName;
use session_nodes::Beginning;
use std::marker::{Brand, PhantomData};
use thread_link::Named;

/// Which link a session has, what its nodes start from, and which log says what its callers are told. It has no bytes: whoever calls a
/// function with such a parameter picks all three.
pub trait Linked {
    ghost use Rattle.std.specs.Prelude.{ℕ};
    ghost use Rattle.thread_link.specs.Names.{LinkName};
    ghost use Rattle.model.specs.Theorems.{Opening};

    /// The link: the rows of its two directions.
    ghost link: { LinkName };

    /// What both nodes start from.
    ghost opening: { Opening };

    /// The name of the log of what its callers are told.
    ghost log: { ℕ };
}

impl Linked for Brand {
    ghost use Rattle.thread_link.specs.Names.{no_link};
    ghost use Rattle.session_link.specs.Links.{no_opening};

    ghost link = { no_link };

    ghost opening = { no_opening };

    ghost log = { 0 };
}

/// The beginning of a session over a link.
pub struct Began<L: Linked> {
    of: PhantomData<L>,
}

impl<L: Linked> LogName for Began<L> {
    ghost name = { L.log };
}

impl<L: Linked> Beginning for Began<L> {
    ghost use Rattle.std.specs.Prelude.{Some};

    ghost opening = { Some L.opening };
}

/// The direction from the primary to the secondary.
pub struct There<L: Linked> {
    of: PhantomData<L>,
}

impl<L: Linked> Named for There<L> {
    ghost use Rattle.thread_link.specs.Names.{There};

    ghost link = { L.link };

    ghost direction = { There };
}

/// The direction from the secondary to the primary.
pub struct Back<L: Linked> {
    of: PhantomData<L>,
}

impl<L: Linked> Named for Back<L> {
    ghost use Rattle.thread_link.specs.Names.{Back};

    ghost link = { L.link };

    ghost direction = { Back };
}
