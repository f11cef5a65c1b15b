//! Three stopped devices are read and taken up again: the control block and its checkpoint, the log
//! below the mark, and the changes that the pages may lack.
#![tactic(auto)]

// The devices.
mod disks;
// Why devices are not taken up again.
mod fault;
// Devices that are handed back.
mod unreopened;
// What was read of them.
mod reopened;
// The changes of the records, for their pages.
mod taking_in;
// The commits of the records, for the readers.
mod committing;
// What a restart takes of the records.
mod taken;
// The checkpoint, compared with the log.
mod comparing;
// The log, record by record.
mod reading;
// A log that was read whole.
mod read_log;
// Devices of which no log was taken up.
mod unread_log;
// The log and the pages together.
mod joining;
// Whether records are judged on.
mod judging;
// Devices that are synced.
mod syncing;
// Devices that are read.
mod read_back;
// Both.
mod reopening;
// Devices to which another control state was written.
mod again;
// Devices whose pages are made anew.
mod rebuilding;
// What of the log device is read.
mod below_mark;

pub use again::{
    a_node_forgets_or_not, a_node_forgets_what_it_never_reached, a_primary_follows_again,
    a_primary_follows_again_or_not,
};
pub use below_mark::a_node_is_below_its_mark;
pub use disks::Disks;
pub use fault::Fault;
pub use rebuilding::{
    a_log_forgets_its_checkpoint_or_not, a_log_makes_its_pages_anew,
    a_node_forgets_its_checkpoint_or_not, a_node_needs_no_checkpoint,
};
pub use reopened::Reopened;
pub use reopening::reopen;
pub use unreopened::Unreopened;
