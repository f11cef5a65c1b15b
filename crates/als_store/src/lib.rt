//! What a standby stores: its log and control block on devices, its pages on a device and in
//! frames, and its transaction table.
#![tactic(auto)]

// Why an event is refused.
mod fault;
// What becomes of a transaction in doubt.
mod decision;
// Devices handed back.
mod unformatted;
// What a new store has in memory.
mod new_parts;
// The devices of a new store.
mod laying_out;
// What a store was when it was made.
mod origin;
// The log, the control block, the pages and the transaction table.
mod store;
// What a writer has to know of the log.
mod writing_now;
// A store that was opened, with the commits of its log.
mod opened;

pub use als_ckpt::Phase;
pub use als_reopen::{Disks, Fault as OpenFault, Unreopened};
pub use als_validator::KeyNow;
pub use decision::Decision;
pub use fault::Fault;
pub use opened::Opened;
pub use store::Store;
pub use store::crashing::crash_disks;
pub use unformatted::Unformatted;
pub use writing_now::WritingNow;
