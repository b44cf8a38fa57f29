//! Requests of block clients over a device: reads, writes with their receipts, flushes, and where the images have data; and how
//! long a client may take for its replies.
#![tactic(auto)]

mod answer;
mod answered;
mod begun_request;
mod complete;
mod done;
mod ended;
mod last_round;
mod pace;
mod perform;
mod read_on;
mod reading;
mod reading_laws;
mod release;
mod reply_bytes;
mod requests;
mod stable_storage;
mod status;
mod stored;
mod syncs;
mod under_way;

pub use answer::Answer;
pub use answered::Answered;
pub use begun_request::BegunRequest;
pub use ended::Ended;
pub use pace::time_left;
pub use reading::Reading;
pub use reading_laws::portions_cover;
pub use requests::Requests;
pub use stored::Stored;
pub use syncs::asks_for_sync;
pub use under_way::RequestUnderWay;
