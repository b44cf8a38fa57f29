//! A session over a link in this process: each node under a lock of its own, worked by threads. It can be cut and
//! reconnected while writers go on, and its end joins both nodes.
#![tactic(auto)]

mod kept_session;
mod session;

pub use kept_session::{
    Finished, KeptSession, LockedLinkPrimary, LockedLinkSecondary, PairMetadata, SharedLinkSession,
};
pub use locked_halves::{LockedPrimary, LockedSecondary};
pub use session::Session;
pub use session_api::{Begun, Device, Host, Runtime, SessionStart};
pub use session_link::{Back, Began, Linked, NamedPrimary, NamedSecondary, There};
pub use session_threads::SharedSession;
