//! What one caller of a session was told, and what it wrote.
ghost use Rattle.std.specs.Prelude.{◌≡◌, ◌∷◌, ◌++◌, []};
ghost use mathlib.Core.List.{IsPrefix};
ghost use Rattle.told.specs.Log.{Extends};
ghost use Rattle.told.specs.declared.entry.Told.TheVariants.{Accepted, Given, Held, Patched};

use crate::kinds::{TellsAccepted, TellsGiven, TellsHeld, TellsNothing, TellsPatched};
use crate::own_numbers::OwnNumbers;
use crate::{ToldLog, ToldSeen};
use bytes::Bytes;
use ghost_log::{Blank, LogName};
use primary::Receipt;
use std::marker::Model;

/// What one caller of a session was told so far, and the numbers of its own writes. It takes no bytes. It cannot be copied, so that
/// whoever has one to write with cannot hide a write in another.
#[derive(Drop)]
pub struct Caller<J: LogName> {
    seen: ToldSeen<J>,
    own: OwnNumbers,
}

impl<J: LogName> Model for Caller<J> {
    ghost use Rattle.told.specs.Callers.{CallerState};

    ghost Value = { CallerState };

    ghost view = { λ c. record { log = c.seen.log; own = c.own.numbers } };
}

/// The right to make callers of a session. It takes no bytes. There is one for each log, and whoever opens the session has it.
#[derive(Drop)]
pub struct Callers<J: LogName> {
    none: ToldSeen<J>,
}

impl<J: LogName> Model for Callers<J> {
    ghost use Rattle.std.specs.Prelude.{◌≡◌, []};

    ghost Value = { Unit {0} };

    ghost view = { λ _. tt };

    ghost invariant = { λ c. c.none.log ≡ [] };
}

/// Opens the log of a session: all that its callers are told, for whoever locks its primary, and the right to make callers.
pub fn open_log<J: LogName>(blank: Blank) -> (ToldLog<J>, Callers<J>)
    requires { blank.name ≡ J.name }
    ensures { result.0.log ≡ [] }
{
    let mut log = blank.open();
    let none = log.grow::<(), (), TellsNothing>(&(), &());
    (log, Callers { none })
}

impl<J: LogName> Callers<J> {
    /// Returns a caller that was told nothing and has written nothing.
    pub fn caller(&self) -> Caller<J>
        ensures { result ≡ record { log = []; own = [] } }
    {
        Caller {
            seen: self.none.again(),
            own: OwnNumbers::new(),
        }
    }
}

impl<J: LogName> Caller<J> {
    /// Returns what it was told.
    pub fn seen(&self) -> ToldSeen<J>
        ensures { result.log ≡ self.now.log }
    {
        self.seen.again()
    }

    /// Tells it, and the log, that a write was accepted, by its number and its first block, and its bytes.
    pub fn accepted(&mut self, log: &mut ToldLog<J>, at: &(u64, u64), bytes: &Bytes)
        ensures log { log.new.log ≡ log.old.log ++ Accepted at.now.0 at.now.1 bytes.now ∷ [] }
        ensures told { Extends self.old.log (Accepted at.now.0 at.now.1 bytes.now) self.new.log }
        ensures own { self.new.own ≡ self.old.own ++ at.now.0 ∷ [] }
    {
        log.knows(&self.seen);
        self.seen = log.grow::<(u64, u64), Bytes, TellsAccepted>(at, bytes);
        self.own.add(&[at.0]);
    }

    /// Tells it, and the log, that a write within a block was accepted, by its number, its block and the byte of that with which it
    /// begins, and its bytes.
    pub fn patched(&mut self, log: &mut ToldLog<J>, at: &(u64, u64, u32), bytes: &Bytes)
        ensures log { log.new.log ≡ log.old.log ++ Patched at.now.0 at.now.1 at.now.2 bytes.now ∷ [] }
        ensures told { Extends self.old.log (Patched at.now.0 at.now.1 at.now.2 bytes.now) self.new.log }
        ensures own { self.new.own ≡ self.old.own ++ at.now.0 ∷ [] }
    {
        log.knows(&self.seen);
        self.seen = log.grow::<(u64, u64, u32), Bytes, TellsPatched>(at, bytes);
        self.own.add(&[at.0]);
    }

    /// Tells it, and the log, that this receipt was given.
    pub fn given(&mut self, log: &mut ToldLog<J>, receipt: &Receipt)
        ensures log { log.new.log ≡ log.old.log ++ Given receipt.now ∷ [] }
        ensures told { Extends self.old.log (Given receipt.now) self.new.log }
        ensures own { self.new.own ≡ self.old.own }
    {
        log.knows(&self.seen);
        self.seen = log.grow::<Receipt, (), TellsGiven>(receipt, &());
    }

    /// Tells it, and the log, what the disk held, by the first block and the number of blocks, and the bytes.
    pub fn held(&mut self, log: &mut ToldLog<J>, at: &(u64, u64), bytes: &Vec<u8>)
        ensures log { log.new.log ≡ log.old.log ++ Held at.now.0 at.now.1 bytes.now.items ∷ [] }
        ensures told { Extends self.old.log (Held at.now.0 at.now.1 bytes.now.items) self.new.log }
        ensures own { self.new.own ≡ self.old.own }
    {
        log.knows(&self.seen);
        self.seen = log.grow::<(u64, u64), Vec<u8>, TellsHeld>(at, bytes);
    }
}
