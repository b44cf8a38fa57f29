//! Runs a session over two disks, from its start to its settlement.
ghost use Rattle.std.specs.Prelude.{◌≡◌, ◌<◌, slice_get, IfOk};
ghost use Rattle.thread_link.specs.Names as names;
ghost use Rattle.volume.specs.Links.{AreEndsOf};
ghost use Rattle.volume.specs.Opening.{opening_of};

use crate::callers::{Work, carry_out};
use crate::disks::Signals;
use crate::outcome::{Answers, Outcome, bring_together};
use crate::own_calls::own_calls;
use bitmap::Bitmap;
use blocks::{ConnectionWords, Protocol, Refusal, Settings, Store, Tuple};
use ghost_log::Blank;
use metadata::StableFile;
use std::alloc::Global;
use std::marker::Brand;
use std::process::Abort;
use std::sync::Arc;
use thread_link::{RuledIn, RuledOut, ruled};
use told::Callers;
use volume::{Began, Linked, Runtime, Session, SessionStart, SharedLinkSession};

/// The identifiers of disks that are equal.
pub(crate) const ALIKE: Tuple = Tuple {
    current: 1,
    bitmap: 0,
    first_historical: 0,
    second_historical: 0,
};

/// The identifiers of a disk about which nothing is known.
pub(crate) const UNKNOWN: Tuple = Tuple {
    current: 0,
    bitmap: 0,
    first_historical: 0,
    second_historical: 0,
};

/// A session: how it is set, and what its callers do.
#[derive(Clone, Copy, Debug, PartialEq, Eq)]
pub(crate) struct Case {
    pub(crate) protocol: Protocol,
    /// How many frames each direction of the link has room for.
    pub(crate) link: u32,
    pub(crate) own: Tuple,
    pub(crate) peer: Tuple,
    /// The words of the first connection.
    pub(crate) words: ConnectionWords,
    /// Whether the link is cut after the first hello.
    pub(crate) is_cut: bool,
    pub(crate) work: Work,
}

impl Case {
    /// Returns a session of the default settings, over disks that are equal.
    pub(crate) fn of(protocol: Protocol, work: Work) -> Case {
        Case {
            protocol,
            link: Settings::STANDARD.link,
            own: ALIKE,
            peer: ALIKE,
            words: ConnectionWords { sync: 2, loss: 3 },
            is_cut: false,
            work,
        }
    }

    /// Returns the same over the smallest link.
    pub(crate) fn over_one_frame(self) -> Case {
        Case { link: 1, ..self }
    }

    /// Returns the same over a peer's disk about which nothing is known, and with a link that is cut after the first hello.
    pub(crate) fn cut_from_the_start(self) -> Case {
        Case {
            peer: UNKNOWN,
            is_cut: true,
            ..self
        }
    }

    /// Returns what the session starts from. No block is marked.
    pub(crate) fn parts(&self, alloc: Global) -> Result<SessionStart, Refusal>
        ensures { IfOk result (λ parts. 0 < parts.settings.link) }
    {
        let settings = Settings {
            protocol: self.protocol,
            link: self.link,
            ..Settings::STANDARD
        };
        settings.check()?;
        Ok(SessionStart {
            settings,
            own: self.own,
            peer: self.peer,
            marks: Bitmap::unmarked(alloc, u64::from(settings.blocks))?,
            words: self.words,
            is_cut: self.is_cut,
        })
    }
}

/// Runs a session over these disks, whose threads and callers share the signals. Its start may be refused.
pub(crate) fn run<
    R: Abort + Runtime,
    S: Store + Drop + Send + 'static,
    T: Store + Drop + Send + 'static,
>(
    rt: R,
    alloc: Global,
    case: Case,
    disks: (S, T),
    signals: &Arc<Signals, Global>,
) -> Result<Outcome, Refusal> {
    let parts = case.parts(alloc).expect(&rt, "settings");
    let there = ruled(rt, alloc, parts.settings.link).expect(&rt, "a link");
    let back = ruled(rt, alloc, parts.settings.link).expect(&rt, "a link");
    let blank = Blank::new();
    run_named::<Brand, _, _, _>(
        rt, alloc, case.work, there, back, disks, parts, blank, signals,
    )
}

// Runs it in one function over its name, which the caller picks.
fn run_named<
    L: Linked + Send + Sync + 'static,
    R: Abort + Runtime,
    S: Store + Drop + Send + 'static,
    T: Store + Drop + Send + 'static,
>(
    rt: R,
    alloc: Global,
    work: Work,
    there: (RuledOut<R>, RuledIn<R>),
    back: (RuledOut<R>, RuledIn<R>),
    disks: (S, T),
    parts: SessionStart,
    blank: Blank,
    signals: &Arc<Signals, Global>,
) -> Result<Outcome, Refusal>
    requires there { AreEndsOf L.link names.There there }
    requires back { AreEndsOf L.link names.Back back }
    requires opening { L.opening ≡ opening_of parts (slice_get (S.contents disks.0)) (slice_get (T.contents disks.1)) }
    requires log { blank.name ≡ L.log }
{
    let (local, peer) = disks;
    match Session::<R, L, S, T>::start(rt, alloc, there, back, local, peer, parts, blank) {
        Ok(session) => {
            let answers = if work == Work::OwnCalls {
                own_calls(&rt, alloc, &session)
            } else {
                let callers = session.callers();
                carry_out_over(&rt, alloc, session.mirror(), callers, signals, work)
            };
            let (primary, secondary, _) = session.finish().expect(&rt, "both nodes");
            Ok(bring_together(&rt, (primary, secondary), &answers))
        }
        Err(refusal) => Err(refusal),
    }
}

// Carries the work out over the mirror, whatever the type of its metadata's files.
fn carry_out_over<
    L: Linked + Send + Sync + 'static,
    R: Abort + Runtime,
    S: Store + Drop + Send + 'static,
    T: Store + Drop + Send + 'static,
    F: StableFile + Send + 'static,
    G: StableFile + Send + 'static,
>(
    rt: &R,
    alloc: Global,
    mirror: &SharedLinkSession<R, L, S, T, F, G>,
    callers: &Callers<Began<L>>,
    signals: &Signals,
    work: Work,
) -> Answers {
    carry_out(rt, alloc, mirror, callers, signals, work)
}
