//! The pages of a stopped node against its log: whether the block of a page is what the log makes
//! of the page, and lacks no change that no restart redoes.
#![tactic(auto)]

// One page.
mod page_check;
// The pages of a database.
mod checks;

pub use checks::Checks;
pub use page_check::PageCheck;
