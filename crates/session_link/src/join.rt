//! Both nodes of a session, once one owner has them again.
ghost use Rattle.std.specs.Prelude.{◌≡◌, Some};
ghost use Rattle.model.specs.Headline.{IsJoined};
ghost use Rattle.model.specs.Primary.{PrimaryHistory};
ghost use Rattle.model.specs.Secondary.{SecondaryHistory};
ghost use Rattle.session_nodes.specs.Primaries.{PrimaryHas, PrimaryIsHad};
ghost use Rattle.session_nodes.specs.Secondaries.{SecondaryHas, SecondaryIsHad};

use crate::{Back, Linked, There, join_direction};
use blocks::Store;
use primary::Primary;
use secondary::Secondary;
use std::sync::Wait;
use thread_link::{NamedIn, NamedOut};

/// The primary of a session.
pub type NamedPrimary<R, L, S> = Primary<NamedOut<R, There<L>>, NamedIn<R, Back<L>>, S>;

/// The secondary of a session.
pub type NamedSecondary<R, L, T> = Secondary<NamedOut<R, Back<L>>, NamedIn<R, There<L>>, T>;

/// Returns both nodes of a session unchanged. For any histories that they have over the session's link: on each
/// connection, by its number, what each took begins what the other pushed. Takes no memory.
pub fn join_nodes<R: Wait + Drop, L: Linked, S: Store + Drop, T: Store + Drop>(
    primary: NamedPrimary<R, L, S>,
    secondary: NamedSecondary<R, L, T>,
) -> (NamedPrimary<R, L, S>, NamedSecondary<R, L, T>)
    requires primary { PrimaryIsHad (Some L.opening) primary }
    requires secondary { SecondaryIsHad (Some L.opening) secondary }
    ensures primary { result.0 ≡ primary }
    ensures secondary { result.1 ≡ secondary }
    ensures joined { (p : PrimaryHistory) (s : SecondaryHistory) → PrimaryHas primary p → SecondaryHas secondary s → IsJoined p s }
{
    let (primary, outgoing, acks) = primary.into_parts();
    let (secondary, answers, incoming) = secondary.into_parts();
    let Some(outgoing) = outgoing else {
        unreachable!()
    };
    let Some(acks) = acks else { unreachable!() };
    let Some(answers) = answers else {
        unreachable!()
    };
    let Some(incoming) = incoming else {
        unreachable!()
    };
    let (outgoing, incoming) = join_direction(outgoing, incoming);
    let (answers, acks) = join_direction(answers, acks);
    (
        primary.linked(Some(outgoing), Some(acks)),
        secondary.linked(Some(answers), Some(incoming)),
    )
}
