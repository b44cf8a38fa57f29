//! The frames of a link as bytes: the encoding of each packet, and the decoding of whole frames or of a stream in any
//! pieces.
#![tactic(auto)]

mod cutting;
mod decoder;
mod fixed_part;
mod frame;
mod header;
mod laws;
mod numbers;
mod packet;
mod reading;
mod stream;
mod writing;

pub use blocks::{Command, Protocol, Tuple};
pub use cutting::{MAX_FRAME_BYTES, cut_length, is_cut};
pub use decoder::Decoder;
pub use fixed_part::{FIXED_BYTES, FixedPart};
pub use frame::Frame;
pub use laws::{
    any_pieces, no_spelling_begins_another, one_answer, one_cut, one_piece_after_another,
    one_reading, round_trip, spelling_is_cut,
};
pub use numbers::{put_u16, put_u32, put_u64, u16_at, u32_at, u64_at};
pub use packet::{Acknowledgement, Packet};
pub use reading::{decode, read};
pub use stream::{Transcript, decode_all};
pub use writing::encode;
