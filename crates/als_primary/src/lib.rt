//! The server of a primary: the threads that serve HTTP are its clients, and one thread leads.
//!
//! ```text
//! HTTP threads --Work--> seats --> leader: write, force once, publish, answer all of a group
//!              <-Answer- seats <--/        then upkeep: redo, flush, checkpoint
//!              --reader--> view of what is published
//! ```
//!
//! 1. Only the leader has the engine. It answers a transaction once its group is forced, confirmed and
//!    published.
//! 2. Each thread has a seat of its own. The threads share the eight readers of the view.
//! 3. Who may commit is decided before the folder is touched: clients with the token, or, without a
//!    token, all clients of a loopback address.
//! 4. Followers are sent the log below what is forced, each in a session of its own. With `sync` above 0
//!    a group is published and answered once that many of different folders have acknowledged it. So is
//!    the log with which the primary began: before that no request reads a key, or what is in doubt.
//! 5. What a thread is answered may be told of its own work (`IsPromised` of `specs/Telling.antt`): als_tickets
//!    carries that through the seats' locks.
//! 6. However the leader ends, what was not begun is answered so, what the engine has is put on the
//!    devices, and each thread is joined.
#![tactic(auto)]

// What the command asks for.
mod serving;
// Which numbers of that are in range.
mod ranges;
// Why it did not serve.
mod refusal;
// The clients of the leader.
mod desk;
// What a group came to.
mod group;
// What is in doubt.
mod doubts;
// The way of a serving thread to the leader.
mod chair;
// The services of the threads.
mod services;
// The token of those who may commit.
mod token;
// Why its file is refused.
mod bad_token;
// Who may commit.
mod guarding;
// What is announced to whoever runs it.
mod announcing;
// The upkeep, with the board and the followers.
mod watching;
// What the quorum answered.
mod answers;
// What the leader and the sessions of its followers share.
mod others;
mod pulse;
// How long followers are waited for.
mod delay;
// The sessions of followers.
mod following;
// The threads that serve requests.
mod beginning;
// All of the command.
mod running;

pub use als_followers::{Notice, What};
pub use announcing::Announces;
pub use bad_token::BadToken;
pub use following::check_followers;
pub use ranges::check_numbers;
pub use refusal::Refusal;
pub use running::primary;
pub use serving::Serving;
