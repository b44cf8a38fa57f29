//! The link between two nodes in threads of their own. Frames go from one end of a direction to the other
//! through a row, as they are or in pieces, over one connection after another.
#![tactic(auto)]

mod both_ways;
mod ends;
mod gathered;
mod inward;
mod named_in;
mod named_out;
mod names;
mod numbered;
mod outward;
mod piece;
mod pieces;
mod rest;
mod ring_invariant;
mod sheet;
mod stock;

pub use both_ways::RuledLink;
pub use ends::{FRAME_PIECES, join_ends, ruled, with_invariant};
pub use inward::RuledIn;
pub use named_in::NamedIn;
pub use named_out::NamedOut;
pub use names::Named;
pub use outward::RuledOut;
pub use piece::{PIECE_BYTES, Piece};
pub use pieces::{PieceIn, PieceOut, RowOut, frame_row, join_pieces, row, row_with_invariant};
pub use ring_invariant::{NoInvariant, RingInvariant};
pub use sheet::Sheet;
