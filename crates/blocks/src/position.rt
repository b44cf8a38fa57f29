//! Positions of items in the streams of connections.
ghost use Rattle.std.specs.Prelude.{◌≡◌, ◌<◌, ◌-◌};
ghost use Rattle.blocks.specs.Positions.{connection_of};

use std::marker::Model;

/// The position of an item: its connection, and its place in the connection's stream.
#[derive(Clone, Copy, Debug, PartialEq, Eq)]
pub struct StreamPosition {
    connection: u32,
    place: u32,
}

impl Model for StreamPosition {
    ghost use Rattle.std.specs.Prelude.{suc, ◌<◌, ◌-◌};
    ghost use Rattle.blocks.specs.Positions.{StreamPosition as Position};

    ghost Value = { Position };

    ghost view = { λ p. record { index = p.connection - 1; place = p.place } };

    ghost invariant = { λ p. 0 < p.connection };

    ghost inverse = { λ p. record { connection = suc p.index; place = p.place } };
}

impl StreamPosition {
    /// Returns the position at this place in the stream of the connection with this number, which is counted from 1.
    pub fn new(connection: u32, place: u32) -> StreamPosition
        requires counted { 0 < connection }
        ensures { result ≡ record { index = connection - 1; place = place } }
    {
        StreamPosition { connection, place }
    }

    /// Returns the connection's number, counted from 1.
    pub fn connection(self) -> u32
        ensures { result ≡ connection_of self }
    {
        self.connection
    }

    /// Returns the place in the connection's stream, counted from 0.
    pub fn place(self) -> u32
        ensures { result ≡ self.place }
    {
        self.place
    }
}
