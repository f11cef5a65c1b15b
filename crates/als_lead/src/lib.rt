//! The leader of a primary: it alone has the engine, and writes what its clients ask for, in groups.
//!
//! ```text
//! waiting -> writing each work of a group -> one force -> enough others hold it -> publish -> answer all -> upkeep
//!    ^                                         | failed           | too few in time                        |
//!    |                                         v                  v                                        |
//!    |                                   answer, and end    answer `Unknown`, `Withheld`                   |
//!    '--- waiting until they do <---------------------------------'   <------------------------------------'
//! ```
//!
//! 1. Nobody else makes events, so each answer is true of the engine's own log.
//! 2. All of a group is answered after its force and its confirmation, refusals too: until then a refusal
//!    may tell of a commit that a crash or a takeover takes back.
//! 3. What is taken is answered once, in the order in which it was taken, and to its own seat.
//! 4. If a force fails, what may be in the log is answered `Unknown`, the rest is refused, and the leader
//!    ends: what a failed device has is not known.
//! 5. If too few others hold a group in time, nothing is promised: what is written is answered `Unknown`,
//!    what was refused `Withheld`. Nothing of it is published and no other group is taken until enough hold
//!    it, so at most one group of the log is ever unconfirmed.
//! 6. What an earlier work owes to the log is written before the next one, and before the force.
//! 7. A work is a transaction that commits, one that prepares, or the decision of one in doubt. Each kind
//!    has its own answer.
//! 8. Each answer is owed when it is told, whether the leader ever returns or not: `tell` requires that it may
//!    be told, and `lead` that whatever is due may be.
#![tactic(auto)]

// What is asked for, and the seat that its answer goes to.
mod asked;
// The answer.
mod answer;
// Both of them.
mod told;
// What was asked and answered, for clauses.
mod account;
// The clients.
mod clients;
// The most that a group may have.
mod limits;
// One work written.
mod writing;
// The works of a group written.
mod filling;
// The log made durable.
mod forcing;
// The result of a force and its confirmation.
mod forced;
// The log confirmed by others, and then published.
mod confirming;
// A group answered.
mod telling;
// All that is done with a group.
mod serving;
// What is done between groups.
mod keeping_up;
mod upkeep;
// Groups, one after another.
mod leading;
// Laws of the answers.
mod laws;
// The devices of a primary's folder, and the engine over them.
mod devices;
// The folder of a primary.
mod opening;
// The folder of a new primary.
mod laying_out;

pub use account::Account;
pub use answer::Answer;
pub use asked::Asked;
pub use clients::{Clients, Waited};
pub use keeping_up::PrimaryUpkeep;
pub use laws::{
    a_decision_commits_what_was_prepared, a_true_answer_stays_true,
    an_answered_commit_is_in_the_log,
};
pub use laying_out::{NewDatabase, lay_out};
pub use leading::lead;
pub use limits::Limits;
pub use opening::{Database, Primary, open};
pub use told::Told;
pub use upkeep::Upkeep;
