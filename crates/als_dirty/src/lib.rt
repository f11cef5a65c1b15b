//! The dirty page table of ARIES: of each page the first record of the log that its image last
//! synced lacks, and the first that its image last written lacks.
#![tactic(auto)]

// What the table keeps of a page.
mod dirty_page;
// All pages.
mod dirty_table;
// What the rows mean for what a crash leaves.
mod laws;

pub use dirty_page::DirtyPage;
pub use dirty_table::DirtyTable;
pub use laws::{other_records_pass, rec_lsn_covers_each_image};
