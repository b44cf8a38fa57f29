//! The link of a session: its name, which both locked nodes share, and what is known of them once one owner has both
//! again.
#![tactic(auto)]

mod direction;
mod join;
mod names;
mod naming;
mod numbers;

pub use direction::join_direction;
pub use join::{NamedPrimary, NamedSecondary, join_nodes};
pub use names::{Back, Began, Linked, There};
pub use naming::{PrimaryEnds, SecondaryEnds, named_ends};
pub use numbers::check_numbers;
