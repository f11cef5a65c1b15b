//! What becomes of a commit that a primary answered since standbys had acknowledged it. Each law is
//! the contract of a function that does nothing.
#![tactic(auto)]

// What a leader answered.
mod leading;
// One standby, and a takeover of it.
mod deposed;
// What a primary hears of a standby.
mod heard;
// Several standbys, of which one is chosen.
mod enough;

pub use deposed::{
    a_taken_over_commit_is_shown, an_answered_commit_is_below_the_seal,
    an_answered_commit_is_taken_over, later_standbys_have_it,
};
pub use enough::{the_longest_is_taken_over, the_longest_of_enough_holds_all};
pub use heard::what_is_heard_was_told;
pub use leading::what_a_leader_answered_is_taken_over;
