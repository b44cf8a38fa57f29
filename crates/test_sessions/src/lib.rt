//! Tests of sessions by threads: what their callers get, and what their two disks hold, whatever the schedule. Besides,
//! tests of what a session stands on: the bells on which its threads wait, its pumps, and the settlement of its nodes.
#![tactic(auto)]

#[cfg(test)]
mod bells;
#[cfg(test)]
mod callers;
#[cfg(test)]
mod disks;
#[cfg(test)]
mod faults;
#[cfg(test)]
mod gates;
#[cfg(test)]
mod nodes;
#[cfg(test)]
mod outcome;
#[cfg(test)]
mod own_calls;
#[cfg(test)]
mod pipes;
#[cfg(test)]
mod pumping;
#[cfg(test)]
mod refusals;
#[cfg(test)]
mod refused_calls;
#[cfg(test)]
mod session;
#[cfg(test)]
mod settlements;
#[cfg(test)]
mod wire;
#[cfg(test)]
mod writers;
