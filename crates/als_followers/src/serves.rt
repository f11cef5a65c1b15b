ghost use Rattle.std.specs.Prelude.{◌≤◌};

use als_sending::Marks;
use als_ship::Fault;
use std::alloc::Global;
use std::io::{Read, Write};

/// A log that is sent to one follower after another. Threads share it, so each session opens a log of its
/// own.
pub trait Serves {
    /// Sends the log over two streams, from where the follower goes on, with a window of this number of
    /// frames. It answers how many log bytes were new to the follower.
    ///
    /// Whoever asks what log it is gets the answer in place of it: 0, and `marks` hears nothing.
    ///
    /// As `als_comparing::serve_log` says. Stream: the log can't be opened either.
    fn serve<M: Marks, I: Read, W: Write>(
        &self,
        alloc: Global,
        marks: &mut M,
        window: u32,
        reader: &mut I,
        writer: &mut W,
    ) -> Result<u64, Fault>
        requires some { 1 ≤ window }
        requires few { window ≤ 64 };

    /// Each session that waits gives its follower a sign now, and so ends where that is gone.
    fn knock(&self) {}
}
