//! Tests by calls of what the nodes are built on: their parts, frames and their links.
#![tactic(auto)]

#[cfg(test)]
mod frames;
#[cfg(test)]
mod parts;
#[cfg(test)]
mod ruled;
#[cfg(test)]
mod vectors;
