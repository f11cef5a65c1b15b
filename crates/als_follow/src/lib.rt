//! How a standby follows one session with threads beside the follower, over one engine that they
//! share.
//!
//! ```text
//!     primary --frames--> follower: feed, force, publish, acknowledge
//!                            |  what waits, how far the log is acknowledged
//!                            v
//!                        Scheduler --redo is due--> dispatcher --leases--> workers
//!                            |------flush is due--> flusher --then--> checkpointer
//! ```
//!
//! 1. The follower never redoes: what it feeds waits until so much waits that leases are deep, and
//!    then workers redo it outside the engine. It waits itself where too much waits.
//! 2. Each thread asks the scheduler before each step, and sleeps there while nothing is due.
//! 3. The first refusal closes the scheduler, which ends all threads, and is what the session answers.
//! 4. However the session ended, every thread is joined, leases that are out are recalled, all that
//!    is held is put on the devices, and the engine comes back. It is reached from the one that was
//!    handed in by events of the small machine, and has all that the follower acknowledged.
//! 5. Where a thread could not be started, or allocation failed, no frame was asked for, and the
//!    caller may follow the session in one thread.
#![tactic(auto)]

// What threads sleep on.
mod signal;
// What each thread asks, and what the follower tells.
mod scheduler;
// An observer that tells the scheduler what waits.
mod pacing;
// What is done after each acknowledgement.
mod publishing;
// What the follower has to itself.
mod session;
// Why a thread ended.
mod refusal;
// What all threads work with.
mod context;
// A worker and what it works with.
mod worker;
// All workers.
mod pool;
// The other threads, each in a function of its own.
mod threads;
// What is held, onto the devices.
mod putting_away;
// All threads, and what follows them.
mod coordinator;
// What a session leaves.
mod followed;
// A session over an engine that threads share.
mod beside;

pub use beside::follow_beside;
pub use followed::Followed;
