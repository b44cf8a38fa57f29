//! The progress of a hello.
ghost use Rattle.std.specs.Prelude.{◌≡◌, ◌≤◌, min, nat_le, suc};
ghost use Rattle.handshakes.specs.Hello.{advanced, hello_after};

use blocks::Command;
use std::marker::Model;

/// How many frames a hello has: PROTOCOL, SIZES, UUIDS.
pub const HELLO_FRAMES: u32 = 3;

/// How many frames of a hello have passed in one direction, 3 at most. Proofs see the number.
#[derive(Clone, Copy, Debug, PartialEq, Eq)]
pub struct Hello {
    frames: u32,
}

impl Model for Hello {
    ghost use Rattle.std.specs.Prelude.{ℕ, ◌≤◌};

    ghost Value = { ℕ };

    ghost view = { λ h. h.frames };

    ghost invariant = { λ h. h.frames ≤ 3 };

    ghost inverse = { λ n. record { frames = n } };
}

impl Hello {
    /// Creates the state in which no frame has passed.
    pub fn new() -> Hello
        ensures { result ≡ 0 }
    {
        Hello { frames: 0 }
    }

    /// Returns how many frames have passed.
    pub fn frames(self) -> u32
        ensures { result ≡ self }
    {
        self.frames
    }

    /// Returns the command of the next frame, if there is one.
    pub fn next(self) -> Option<Command>
        ensures { result ≡ hello_after self }
    {
        match self.frames {
            0 => Some(Command::Protocol),
            1 => Some(Command::Sizes),
            2 => Some(Command::Uuids),
            _ => None,
        }
    }

    /// Returns whether all frames have passed.
    pub fn is_done(self) -> bool
        ensures { result ≡ nat_le 3 self }
    {
        self.frames >= HELLO_FRAMES
    }

    /// Counts the next frame. A hello that is done stays so.
    pub fn advance(&mut self)
        ensures { self.new ≡ advanced self.old }
    {
        if self.frames < HELLO_FRAMES {
            self.frames += 1;
        }
    }
}
