//! Frames, disks, links and the endpoint.

mod endpoints;
mod faults;
mod hellos;
mod links;
mod samples;
mod spelled;
mod stores;
mod streams;
