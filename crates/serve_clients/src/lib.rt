//! The threads between block clients and the device of any session: those that let clients in, read their requests and
//! answer them, keep the link up, and serve the status page.
#![tactic(auto)]

mod accept;
mod answer;
mod client;
mod conversation;
mod conversations;
mod copying;
mod counts;
mod housekeeper;
mod keeper;
mod latencies;
mod listener;
mod listeners;
mod lists;
mod long_read;
mod map;
mod page;
mod passed;
mod payload_room;
mod quit;
mod reader;
mod reports;
mod request_budget;
mod senders;
mod service;
mod shown;
mod socket_file;
mod standstill;
mod sync_queue;
mod teller;
mod threads;
mod waiting;
mod watch;
mod workers;

pub use client_socket::{Address, ListenFault};
pub use listeners::Listeners;
pub use map::MapFile;
pub use serve_page::StartedAfter;
pub use service::Service;
pub use shown::{CountedWrites, Shown};
pub use socket_file::SocketFiles;
pub use threads::{StartFault, start_threads};
pub use workers::work;
