//! The laws over what logs mean: each is the contract of a function that does nothing. They say in
//! another way what the definitions of als_record say, so that a wrong definition would break one.
#![tactic(auto)]

// What a takeover leaves.
mod takeover;
// What a decision of a transaction in doubt leaves.
mod decisions;
// What a valid log is like.
mod valid_logs;
// What redo and readers make of a log.
mod outcomes;

pub use decisions::{decision_follows, decision_is_kept};
pub use outcomes::{pages_show_keys, readers_see_what_won};
pub use takeover::{sweep_falls, tail_goes_on, tail_is_a_sum, tail_takes_over, undone_has_no_tail};
pub use valid_logs::{one_transaction_holds_a_key, rows_rise, undo_chain_meets_survivors};
