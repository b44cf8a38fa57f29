//! The machine that a session runs on.
use std::sync::Wait;
use std::thread::Threads;
use std::time::Clock;

/// The runtime of a session's threads. Every type that has all of these traits is one.
pub trait Runtime: Threads + Wait + Clock + Copy + Drop + Send + Sync + 'static {}

impl<R: Threads + Wait + Clock + Copy + Drop + Send + Sync + 'static> Runtime for R {}

/// A runtime with an allocator. A session over files and sockets needs `Files` and `Net` besides.
pub trait Host: Runtime + AllocGlobal {}

impl<H: Runtime + AllocGlobal> Host for H {}
