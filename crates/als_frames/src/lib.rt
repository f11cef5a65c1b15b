//! The pages of a database on a block device, some of them in frames in memory.
#![tactic(auto)]

// Why a call is refused.
mod fault;
// The page_LSNs of a frame.
mod lsns;
// The lease of a page.
mod lent;
// A page in memory, and which of its images are on the device.
mod frame;
// In which order the frames stand.
mod zones;
// Where the frames may stand.
mod hints;
// The frames by their pages.
mod table;
// Pages on the device.
mod blocks;
// A device that could not be laid out.
mod unformatted;
// The frames over the device.
mod frames;
// What stays so as the log grows.
mod laws;

pub use fault::Fault;
pub use frames::Frames;
pub use laws::{mark_changes_no_page, record_changes_no_page, synced_lsn_is_spelled};
pub use lent::Lent;
pub use lsns::Lsns;
pub use unformatted::Unformatted;
