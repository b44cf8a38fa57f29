//! The program's command line: what it may be asked to do, its help, and what is wrong with words that it does not
//! know.
#![tactic(auto)]

mod fault;
mod help;
mod image_help;
mod images;
mod order;
mod queries;
mod run;
mod serve;

pub use fault::UsageFault;
pub use order::{HelpTexts, Order, parse};
