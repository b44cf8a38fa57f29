//! The script language: commands over a pair, a line each, and what each of them prints.
#![tactic(auto)]

mod command;
mod interpreter;
mod keys;
mod print;
mod reading;
mod script;

pub use script::script_on;
