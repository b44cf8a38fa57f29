//! The log and what was seen of it.
ghost use Rattle.std.specs.Prelude.{◌≡◌, ℕ, List, [], ◌++◌};
ghost use mathlib.Core.List.{IsPrefix};
ghost use base.Stored.{coded_list};
ghost use denote.Sharing.{said};
ghost use Rattle.ghost_log.specs.Owned.{blank_owns, log_owns, seen_owns};

use std::marker::{Brand, Model, PhantomData};

/// Which log it is. Each call of a program picks it.
pub trait LogName {
    ghost name: { ℕ };
}

impl LogName for Brand {
    ghost name = { 0 };
}

/// What may be added to a log: `adds one other log more` says that `more` may follow `log`, as two values show.
pub trait Adds<X, Y, E> {
    ghost adds: { X → Y → List E → List E → Type 0 };
}

/// An empty log, which has no name in a type yet.
pub struct Blank {
    marker: PhantomData<()>,
    pub ghost name: { ℕ },
}

impl Model for Blank {
    ghost also_owns = { λ b. blank_owns b.name };
}

/// The whole log, and the right to add to it. There is one for each name.
pub struct Log<E, J: LogName> {
    marker: PhantomData<(E, J)>,
    pub ghost log: { List E } by { coded_list E.code },
}

impl<E, J: LogName> Model for Log<E, J> {
    ghost also_owns = { λ l. log_owns E.row.coded.code J.name l.log };
}

/// The log has reached this list, and goes on from it. It can be copied, shared and sent.
pub struct Seen<E, J: LogName> {
    marker: PhantomData<(E, J)>,
    pub ghost log: { List E } by { coded_list E.code },
}

impl<E, J: LogName> Model for Seen<E, J> {
    ghost also_owns = { λ s. seen_owns E.row.coded.code J.name s.log };

    ghost also_shares = { λ s _ κ. said (seen_owns E.row.coded.code J.name s.log) κ };
}

impl Blank {
    /// Creates an empty log.
    pub fn new() -> Blank {
        Blank {
            marker: PhantomData,
        }
    }

    /// Gives the log its name.
    pub fn open<E, J: LogName>(self) -> Log<E, J>
        requires { self.name ≡ J.name }
        ensures { result.log ≡ [] }
    {
        let Self { marker: _ } = self;
        Log {
            marker: PhantomData,
        }
    }
}

impl<E, J: LogName> Log<E, J> {
    /// Adds what may follow, and tells that the log has reached it.
    pub fn grow<X, Y, M: Adds<X, Y, E>>(&mut self, one: &X, other: &Y) -> Seen<E, J>
        requires { (more : List E) × M.adds one.now other.now self.old.log more }
        ensures { (more : List E) × (self.new.log ≡ self.old.log ++ more) × M.adds one.now other.now self.old.log more × (result.log ≡ self.new.log) }
    {
        Seen {
            marker: PhantomData,
        }
    }

    /// Tells that the log goes on from what was seen of it.
    pub fn knows(&mut self, seen: &Seen<E, J>)
        ensures { (self.new ≡ self.old) × IsPrefix seen.now.log self.old.log }
    {}
}

impl<E, J: LogName> Seen<E, J> {
    /// Returns a copy.
    pub fn again(&self) -> Seen<E, J>
        ensures { result ≡ self.now }
    {
        Seen {
            marker: PhantomData,
        }
    }

    /// Learns what another has seen of the log: afterwards this one has seen what both had.
    pub fn learn(&mut self, other: &Seen<E, J>)
        ensures { IsPrefix self.old.log self.new.log × IsPrefix other.now.log self.new.log }
    {}
}

impl Drop for Blank {
    fn drop(self) {
        let Self { marker: _ } = self;
    }
}

impl<E, J: LogName> Drop for Log<E, J> {
    fn drop(self) {
        let Self { marker: _ } = self;
    }
}

impl<E, J: LogName> Drop for Seen<E, J> {
    fn drop(self) {
        let Self { marker: _ } = self;
    }
}

// None of these names a thread.
unsafe impl Send for Blank {}

unsafe impl<E, J: LogName> Send for Log<E, J> {}

unsafe impl<E, J: LogName> Send for Seen<E, J> {}

unsafe impl<E, J: LogName> Sync for Seen<E, J> {}
