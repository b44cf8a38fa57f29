//! Packets through the ends of a link: the sending side and the receiving side of a node, over any link.
#![tactic(auto)]

mod ends;
mod packet_receiver;
mod packet_sender;
mod plain;

pub use ends::joined;
pub use packet_receiver::PacketReceiver;
pub use packet_sender::PacketSender;
