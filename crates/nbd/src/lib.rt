//! The server's side of the network block device protocol, as a machine over bytes: it takes a client's
//! bytes in any pieces, and produces the bytes to send back and the requests to serve. It has no socket and
//! no thread. The protocol is the NBD project's `doc/proto.md`; comments here cite its sections.
#![tactic(auto)]

mod chunk;
mod command;
mod connection;
mod contexts;
mod errno;
mod export;
mod header;
mod laws;
mod options;
mod output;
mod phase;
mod piece;
mod pieces;
mod ranges;
mod reply;
mod request;
mod sayings;
mod step;
mod terms;

pub use chunk::{Body, Chunk, Extent, spelled_failure};
pub use command::NbdCommand;
pub use connection::Connection;
pub use errno::Errno;
pub use export::Export;
pub use header::{REQUEST_BYTES, RequestHeader};
pub use laws::{
    each_is_answered, nothing_else, one_answer, one_piece_after_another, one_reply_to_an_option,
    places_are_the_payload, spans_cover,
};
pub use output::Output;
pub use packets::FixedPart;
pub use piece::Piece;
pub use pieces::Pieces;
pub use ranges::Ranges;
pub use reply::{REPLY_BYTES, Reply};
pub use request::Request;
pub use sayings::Sayings;
pub use terms::Terms;
