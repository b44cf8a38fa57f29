//! The ends of a session's link, before its nodes have them.
ghost use Rattle.std.specs.Prelude.{◌≡◌};
ghost use Rattle.thread_link.specs.Names as names;
ghost use Rattle.session_link.specs.Links.{AreEndsOf};

use crate::{Back, Linked, There};
use std::sync::Wait;
use thread_link::{NamedIn, NamedOut, RuledIn, RuledOut};

/// The ends of a session's primary: the one that it sends to, and the one that acknowledgements come from.
pub type PrimaryEnds<R, L> = (NamedOut<R, There<L>>, NamedIn<R, Back<L>>);

/// The ends of a session's secondary.
pub type SecondaryEnds<R, L> = (NamedOut<R, Back<L>>, NamedIn<R, There<L>>);

/// Gives the ends of both directions the name of the session's link, and each node its own two. Takes no memory.
pub fn named_ends<R: Wait, L: Linked>(
    there: (RuledOut<R>, RuledIn<R>),
    back: (RuledOut<R>, RuledIn<R>),
) -> (PrimaryEnds<R, L>, SecondaryEnds<R, L>)
    requires there { AreEndsOf L.link names.There there }
    requires back { AreEndsOf L.link names.Back back }
    ensures primary { (result.0.0 ≡ there.0) × (result.0.1 ≡ back.1) }
    ensures secondary { (result.1.0 ≡ back.0) × (result.1.1 ≡ there.1) }
{
    let (out, taken) = there;
    let (answers, acks) = back;
    (
        (out.named::<There<L>>(), acks.named::<Back<L>>()),
        (answers.named::<Back<L>>(), taken.named::<There<L>>()),
    )
}
