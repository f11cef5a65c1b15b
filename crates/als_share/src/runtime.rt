use std::sync::Wait;
use std::thread::Threads;

/// What threads that share an engine run on: it starts threads, lets them wait, and is shared by them.
pub trait Runtime: Threads + Wait + Sync {}

impl<R: Threads + Wait + Sync> Runtime for R {}
