//! The interfaces of a session: the device that its callers use, its two halves, what it starts from and runs on, a
//! write under way, what a thread's turn at a locked node did, and the bells that threads wait on.
#![tactic(auto)]

mod begun;
mod bell;
mod called_half;
mod device;
mod host;
mod primary_half;
mod progress;
mod roles;
mod secondary_half;
mod session_start;
mod turn;

pub use begun::Begun;
pub use bell::Bell;
pub use called_half::CalledHalf;
pub use device::Device;
pub use host::{Host, Runtime};
pub use node_lines::{ConnectionItems, PrimaryProgress, SecondaryProgress};
pub use primary_half::PrimaryHalf;
pub use progress::Progress;
pub use roles::{PrimaryRole, SecondaryRole};
pub use secondary_half::SecondaryHalf;
pub use session_start::SessionStart;
pub use turn::{STEPS, TURN_WRITES, Turn};
