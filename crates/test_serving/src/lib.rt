//! Tests of a server: clients over sockets, by bytes written out by hand, also at its end; what a flush waits for and holds up; disks over
//! image files; the status page; and the lines of the log.
#![tactic(auto)]

#[cfg(test)]
mod clients;
#[cfg(test)]
mod endings;
#[cfg(test)]
mod first_starts;
#[cfg(test)]
mod flushes;
#[cfg(test)]
mod held_flush;
#[cfg(test)]
mod images;
#[cfg(test)]
mod log_lines;
#[cfg(test)]
mod long_reads;
#[cfg(test)]
mod page;
#[cfg(test)]
mod silent_askers;
#[cfg(test)]
mod slow_asker;
#[cfg(test)]
mod slow_reader;
#[cfg(test)]
mod unix_sockets;
