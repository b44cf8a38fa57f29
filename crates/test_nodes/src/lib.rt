//! Tests by calls of the nodes, of their cores, of the pair and of the script language.
#![tactic(auto)]

#[cfg(test)]
mod contents;
#[cfg(test)]
mod cores;
#[cfg(test)]
mod nodes;
#[cfg(test)]
mod pairs;
#[cfg(test)]
mod scripts;
#[cfg(test)]
mod tuples;
