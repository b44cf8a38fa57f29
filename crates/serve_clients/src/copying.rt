//! How fast a resync is.
use std::time::{Clock, Instant};

/// The time after which another look counts, in milliseconds. A rate is that since the look before the last one that counts, so it is of
/// the last five to ten seconds.
const LOOK_MS: u64 = 5_000;

/// A look at a resync: when it was, and how many blocks were marked then.
#[derive(Clone, Copy)]
struct Look {
    at: Instant,
    marks: u32,
}

impl Look {
    // Looks now. `None` if there is no clock.
    fn now<R: Clock>(rt: &R, marks: u32) -> Option<Look> {
        let at = Instant::now(rt).ok()?;
        Some(Look { at, marks })
    }

    // Returns the milliseconds since, or 0 if there is no clock.
    fn elapsed_ms<R: Clock>(self, rt: &R) -> u64 {
        match self.at.elapsed(rt) {
            Ok(elapsed) => u64::try_from(elapsed.as_millis()).unwrap_or(u64::MAX),
            Err(_) => 0,
        }
    }
}

/// A resync that goes on, by two looks at it. While it goes on no block is marked anew.
#[derive(Clone, Copy)]
pub(crate) struct Copying {
    earlier: Look,
    last: Look,
}

impl Copying {
    /// Returns one that is first seen now, or `None` if there is no clock.
    pub(crate) fn begin<R: Clock>(rt: &R, marks: u32) -> Option<Copying> {
        let first = Look::now(rt, marks)?;
        Some(Copying {
            earlier: first,
            last: first,
        })
    }

    /// Takes how many blocks are marked now.
    pub(crate) fn look<R: Clock>(self, rt: &R, marks: u32) -> Copying {
        if self.last.elapsed_ms(rt) < LOOK_MS {
            return self;
        }
        match Look::now(rt, marks) {
            Some(look) => Copying {
                earlier: self.last,
                last: look,
            },
            None => self,
        }
    }

    /// Returns how many blocks were copied in the last seconds, if this many are marked now.
    pub(crate) fn copied(self, marks: u32) -> u32 {
        self.earlier.marks.saturating_sub(marks)
    }

    /// Returns how long these seconds are, in milliseconds.
    pub(crate) fn elapsed_ms<R: Clock>(self, rt: &R) -> u64 {
        self.earlier.elapsed_ms(rt)
    }
}
