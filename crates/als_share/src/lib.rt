//! An engine that threads share, and a ledger that counts every event.
//!
//! ```text
//!     thread: Handle with its Share --one turn of the lock an event--> Locked: engine, Books
//! ```
//!
//! 1. An event through a handle is one event of the engine, made in one turn of the lock.
//! 2. Each event that answers Ok is noted in the books and in the thread's share, and no other one;
//!    of a feed the bytes that it took. So whenever the lock is free, the engine's tally is the sum
//!    of all shares.
//! 3. Whenever the lock is free, the engine's machine is reached from the one that was shared, by
//!    events of the small machine. So what is true of each run is true of a standby that threads
//!    drive.
//! 4. Readers stay those of the engine that was shared: what a handle tells, each of them may learn.
//! 5. Whenever the lock is free, what was acknowledged for a session is acknowledged in the engine.
//!    Where threads may not take the database over, no event of a takeover was made.
//! 6. Books and shares take no bytes and no time: they are there for contracts.
//! 7. Laws say what is true of a machine that events and queries made of another one: a lock over
//!    an engine holds such a machine, and its callers may rely on these laws.
#![tactic(auto)]

// What threads run on.
mod runtime;
// Which ledgers belong together.
mod ledgers;
// Ledgers that belong to nothing yet.
mod blanks;
// Parts of all ledgers.
mod part;
// What a thread did.
mod thread_share;
// What was acknowledged for a session.
mod acknowledger;
// What all threads did.
mod books;
// An engine whose tally can be started.
mod counts;
// What is under the lock.
mod locked;
// An engine that nobody shares any more.
mod settled;
// Sharing an engine, and its end.
mod shared;
// A thread's way to it.
mod handle;
// What is done beside events.
mod observer;
// Events with an observer beside them.
mod observed;
// A voucher of observed events.
mod through;
// What is true of a machine that is reached from another one.
mod laws;

pub use acknowledger::Acknowledger;
pub use blanks::Blanks;
pub use counts::Counts;
pub use handle::Handle;
pub use laws::{reaching_goes_on, undo_answers_once_a_record, what_is_reached_is_kept};
pub use ledgers::Ledgers;
pub use observed::Observed;
pub use observer::Observer;
pub use runtime::Runtime;
pub use settled::Settled;
pub use shared::{Shared, settle, share};
pub use thread_share::Share;
pub use through::Through;
