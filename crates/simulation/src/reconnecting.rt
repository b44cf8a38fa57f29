//! How both ends open again, as the thread does it that keeps a link up.
use crate::event::Node;
use crate::mirror::Mirror;
use crate::nodes::{PrimaryNode, SecondaryNode};

/// Opens both ends again, if an end is closed or the link is broken, and both nodes run.
pub(crate) fn reconnect<P: PrimaryNode, S: SecondaryNode>(mirror: &mut Mirror<P, S>) {
    if !mirror.are_running() {
        return;
    }
    if mirror.world.wire.is_cut() || is_half_open(mirror) {
        mirror.close(Node::Primary);
        mirror.close(Node::Secondary);
    }
    reopen(mirror);
}

// Whether an end is closed.
fn is_half_open<P: PrimaryNode, S: SecondaryNode>(mirror: &Mirror<P, S>) -> bool {
    let (Some(primary), Some(secondary)) = (&mirror.primary, &mirror.secondary) else {
        return true;
    };
    !primary.state().is_open || !secondary.is_open()
}

// Opens both ends, if both nodes can.
fn reopen<P: PrimaryNode, S: SecondaryNode>(mirror: &mut Mirror<P, S>) {
    let words = mirror.world.words();
    let (Some(primary), Some(secondary)) = (&mut mirror.primary, &mut mirror.secondary) else {
        return;
    };
    if !secondary.may_reopen() {
        return;
    }
    let Some(number) = primary.reopen(words) else {
        return;
    };
    mirror.world.wire.mend();
    if !secondary.reopen(number) {
        primary.close();
    }
}
