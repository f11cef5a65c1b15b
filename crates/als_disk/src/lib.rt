//! Block devices: what reads give, and what a crash may leave.
#![tactic(auto)]

// what a failed call answers
mod device_error;
// a device, as the layers above it see it
mod block_disk;
// a device that can crash and start again
mod restart;
// a count that never wraps
mod count;
// the content of a block, in a box
mod content;
// the content of a block at the last sync
mod kept;
// the contents of the last sync
mod synced;
// what was written to a block since the last sync
mod unsynced;
// the contents that a device in memory keeps
mod store;
// a device in memory
mod mem_disk;

// which of the next calls fails
mod countdown;
// a shared handle that makes a device fail
mod fuse;
// a device that fails where its fuse burns
mod failing_disk;
// why a file failed
mod failure;
// whether a file is still the one that was opened
mod intact;
// why a file failed first
mod first_error;
// files, piece by piece
mod pieces;
// the writes and syncs of a device, for clauses
mod trail;
// 64 KiB of a file
mod piece;
// which blocks of a file an opening reads
mod extent;
// how much of a file stays in memory
mod keeps;
// what a device over a file keeps in memory
mod mirror;
// the contents of a file, read once
mod reading;
// blocks that wait for a file
mod run;
// a device over a file
mod file_disk;

pub use block_disk::BlockDisk;
pub use device_error::DeviceError;
pub use failing_disk::FailingDisk;
pub use failure::Failure;
pub use file_disk::FileDisk;
pub use first_error::FirstError;
pub use fuse::Fuse;
pub use mem_disk::MemDisk;
pub use restart::Restart;
