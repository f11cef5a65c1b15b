//! The buffer pool: the pages of a database on their device and in frames, what waits for redo, and
//! the dirty page table.
#![tactic(auto)]

// Why a call is refused.
mod fault;
// What waits for each page.
mod queues;
// A device that could not be laid out.
mod unformatted;
// What a new pool has in memory.
mod new_pool;
// Where what waits for each page begins after a restart.
mod starts;
// All pages.
mod pool;
// What holds of a pool for every log.
mod laws;

pub use fault::Fault;
pub use laws::{
    a_log_is_taken_in, change_can_be_read, change_can_be_routed, change_can_follow,
    each_row_is_exact, each_row_is_sound, leases_wait, mark_changes_nothing,
    opened_pages_are_covered, other_records_pass, other_records_wait_nowhere, pool_ends_below,
    queues_join_images, refusals_compute, rows_make_a_checkpoint, stopped_pages_hold_images,
    unread_rows_are_the_checkpoints,
};
pub use new_pool::NewPool;
pub use pool::Pool;
pub use unformatted::Unformatted;
