//! Leases: a page with the first changes that wait for it, redone outside the buffer pool.
//!
//! ```text
//! a lease's batch:   redone in the working page | to be redone
//!                    0 .. done                  | done .. the end, at most 64
//! ```
//!
//! Rules:
//! 1. A lease has the page as it was lent, the first 1 to 64 of the changes that wait for it, and
//!    the page with as many of them as are redone. It cannot be copied.
//! 2. Redo of a lease takes no lock and no memory, touches no device and never fails.
//! 3. The memory of a lease is taken before anything changes, as a room, and is reused.
//! 4. A number names one lease of its pool. Numbers rise, and are never given again.
#![tactic(auto)]

// Whether two pages, or two batches, are the same.
mod compare;
// What a lease holds.
mod work;
// A page that is lent.
mod page_lease;
// The memory of a lease.
mod lease_room;
// The numbers of leases.
mod numbers;
// What waits for a page.
mod page_queue;

pub use lease_room::LeaseRoom;
pub use numbers::Numbers;
pub use page_lease::PageLease;
pub use page_queue::PageQueue;
pub use work::{BATCH_LIMIT, TURN_LEN};
