//! Results of calls, for the rows of tables.
use blocks::{Command, Done, Refusal, What};
use std::process::Abort;

/// What a call did, or why it was refused.
pub(crate) type Answer = Result<Done, Refusal>;

/// A frame of a table's case.
#[derive(Clone, Copy)]
pub(crate) struct Spot {
    pub(crate) case: usize,
    pub(crate) frame: usize,
}

/// Checks that a call around that frame returns what its row says.
pub(crate) fn check_answer(
    rt: &impl Abort,
    spot: Spot,
    (when, step): (&'static str, usize),
    given: Answer,
    wanted: Answer,
) {
    assert_eq!(rt;
        given,
        wanted,
        "case {}, frame {}: {when} {step}",
        spot.case, spot.frame
    );
}

/// The report of a call with nothing to report.
pub(crate) const NOTHING: Done = Done {
    what: What::Nothing,
    completed: None,
    barrier: None,
    synced: false,
};

/// The call was done.
pub(crate) const DONE: Answer = Ok(NOTHING);

/// The end is closed.
pub(crate) const CLOSED: Answer = Err(Refusal::NotConnected);

/// No frame is due, or none came.
pub(crate) const NONE: Answer = Err(Refusal::NothingThere);

/// A frame of a hello went over the link.
pub(crate) const PROTOCOL_WENT: Answer = Ok(Done {
    what: What::Frame(Command::Protocol, None),
    ..NOTHING
});

/// The second frame of a hello went over the link.
pub(crate) const SIZES_WENT: Answer = Ok(Done {
    what: What::Frame(Command::Sizes, None),
    ..NOTHING
});

/// The third frame of a hello went over the link.
pub(crate) const UUIDS_WENT: Answer = Ok(Done {
    what: What::Frame(Command::Uuids, None),
    ..NOTHING
});

/// Write 1 went over the link, at place 0.
pub(crate) const WRITE_WENT: Answer = Ok(Done {
    what: What::Frame(Command::Data, Some(0)),
    ..NOTHING
});

/// The barrier after it went over the link.
pub(crate) const BARRIER_WENT: Answer = Ok(Done {
    what: What::Frame(Command::Barrier, Some(1)),
    ..NOTHING
});

/// An acknowledgement of a write, or of a barrier, went over the link.
pub(crate) const WRITE_ACK_WENT: Answer = Ok(Done {
    what: What::Frame(Command::WriteAck, None),
    ..NOTHING
});

pub(crate) const BARRIER_ACK_WENT: Answer = Ok(Done {
    what: What::Frame(Command::BarrierAck, None),
    ..NOTHING
});
