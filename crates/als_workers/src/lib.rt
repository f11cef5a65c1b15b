//! The threads that work beside a standby's follower, each a function generic over the engine's
//! events and over a gate; and the hand-off, a queue of jobs between a dispatcher and its workers,
//! with passes that account for what went through it.
//!
//! ```text
//!     dispatcher --lease--> hand-off --lease--> apply_worker (several) --give--> engine
//!     flusher: dirty pages, then a sync    checkpointer: whole checkpoints    forcer: log, then mark
//! ```
//!
//! 1. Redo runs outside the engine: a worker has the lease for itself while it redoes a turn of 16
//!    changes, and takes no lock.
//! 2. A worker loses no lease: of each number it took as many as it put back and gave together. What it
//!    gives is recorded, in memory or for contracts alone.
//! 3. Each thread asks its gate before what it does next, and ends where the gate says no. Gates pace
//!    threads, and stop them.
//! 4. A refusal of one page or of the moment is passed over. Each thread's result says why it ended.
//!
//! ```text
//!     dispatcher --put--> [ job | job | .. | job ] --take--> worker
//!                               ^------------put (an unfinished lease)---'
//! ```
//!
//! 5. A job is a lease to work on, or a stop. A lease cannot be copied, so a thread that put one has
//!    it no longer.
//! 6. A thread puts and takes with a pass. A pass takes no bytes: contracts alone see what it put and
//!    what it took, as pairs of a lease's number and its turn, and how many jobs came back to it.
//! 7. At each moment, over all passes, each pair was put as often as it was taken plus as often as it
//!    is in the queue, and so were stops. No pass can put or take without recording it.
//! 8. The first pass has 1024 parts, and each pass cut from it has one. Who joined them all has all
//!    parts, and so knows what all threads put and took: `settle` says so.
#![tactic(auto)]

// What is handed over.
mod job;
// What a pass records, and the rule that holds of the queue and all passes.
mod rule;
// The two ends of the queue.
mod queue;
// Putting, taking, and cutting and joining passes.
mod hand_off;
// What each thread asks before it goes on.
mod gate;
// A lease that was offered.
mod offer;
// Where offers are recorded.
mod offer_record;
// In memory.
mod stored_offers;
// For contracts alone.
mod ghost_offers;
// A worker's own way to give leases back.
mod via;
// Why a worker ended.
mod ended;
// A worker.
mod worker;
// Why the other threads ended.
mod outcome;
// A dispatcher.
mod dispatching;
// A flusher.
mod flushing;
// A checkpointer.
mod checkpointing;
// A forcer.
mod forcing;

pub use checkpointing::checkpointer;
pub use dispatching::{LEASE_LIMIT, dispatcher};
pub use ended::Ended;
pub use flushing::flusher;
pub use forcing::forcer;
pub use gate::{Gate, Point};
pub use ghost_offers::GhostOffers;
pub use job::Job;
pub use offer::Offer;
pub use offer_record::OfferRecord;
pub use outcome::{DispatchEnd, Dispatched, Halt};
pub use queue::HandOff;
pub use rule::{Pass, PassState};
pub use stored_offers::StoredOffers;
pub use via::Via;
pub use worker::apply_worker;
