//! The names of links.

use std::marker::Brand;

/// Which link an end belongs to, and which of its two directions. It has no bytes: a call that has such a parameter
/// picks both, and both ends of one direction have the same name.
pub trait Named {
    ghost use Rattle.thread_link.specs.Names.{Direction, LinkName};

    /// The link: the rows of its two directions.
    ghost link: { LinkName };

    /// From the primary to the secondary, or back.
    ghost direction: { Direction };
}

impl Named for Brand {
    ghost use Rattle.thread_link.specs.Names.{There, no_link};

    ghost link = { no_link };

    ghost direction = { There };
}
