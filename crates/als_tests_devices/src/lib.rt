//! Tests of the devices, and of what lies on them: the log, the control block with its checkpoints,
//! and the pages. They use public names alone.
#![tactic(auto)]

// als_ckpt.
#[cfg(test)]
mod ckpt;
// als_ckpt_codec.
#[cfg(test)]
mod ckpt_codec;
// als_dirty.
#[cfg(test)]
mod dirty;
// als_disk.
#[cfg(test)]
mod disk;
// als_disk: what a device calls its file for.
#[cfg(test)]
mod file_calls;
// als_disk: what a device keeps in memory.
#[cfg(test)]
mod forgetting;
// als_disk: a file that is removed, replaced or cut while its device is open.
#[cfg(test)]
mod losing;
// als_disk: what a device gives its file, and by how many writes.
#[cfg(test)]
mod gathering;
// als_frames.
#[cfg(test)]
mod frames;
// als_log.
#[cfg(test)]
mod log;
// als_page.
#[cfg(test)]
mod page;
// als_pool.
#[cfg(test)]
mod pool;
