//! Tests of the server's side of the protocol: whole sessions, by vectors written out by hand.
#![tactic(auto)]

#[cfg(test)]
mod sessions;
