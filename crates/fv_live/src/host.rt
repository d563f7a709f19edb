//! The runtime that calls on connections and threads are passed.

use std::rt::Clock;
use std::sync::Wait;
use std::thread::Threads;

/// A runtime that may wait, starts threads and says the time. Each call on connections, links, threads or
/// what starts them is passed one that has a network of TCP sockets, too.
pub trait Host: Wait + Threads + Clock + Copy {}

impl<R: Wait + Threads + Clock + Copy> Host for R {}
