//! The local log: records as one text on a block device, of which the front that is synced stands
//! in whatever a crash leaves.
#![tactic(auto)]

// Why a call is refused.
mod fault;
// A record, for clauses alone.
mod noted;
// Records, one after another, for clauses alone.
mod records;
// Those of a log, for clauses alone.
mod history;
// The text's bytes in memory.
mod tail;
// What is done to the device.
mod blocks;
// What a reading is made from.
mod source;
// The bytes that it reads.
mod part;
// A block that was read.
mod kept_block;
// The blocks that were read last.
mod near;
// The text read back.
mod reading;
// What a new log has in memory.
mod new_log;
// The last bytes of a text that stands on a device.
mod reopening;
// A device whose log could not be taken up again.
mod unopened;
// The log.
mod local_log;

pub use fault::Fault;
pub use history::History;
pub use local_log::LocalLog;
pub use new_log::NewLog;
pub use noted::Noted;
pub use unopened::Unopened;
