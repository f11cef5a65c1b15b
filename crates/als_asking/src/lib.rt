//! Commits over HTTP: which request asks for them, who may ask, and the response to each outcome.
//!
//! ```text
//!     request --entry_of--> Reads ----> the reads' own answer
//!                           Commits, Prepares --wanted--> transactions --+
//!                           Decides --decision------------> a decision --+-Commits-> outcomes -> response
//!                           InDoubt --Commits--> what is in doubt --> response
//!                           Denied ---> response
//! ```
//!
//! 1. A change is a POST to `/commit`, `/prepare` or `/decide` that names one of the node's hosts and
//!    satisfies the guard. It never comes from a page in a browser, which could be anybody's.
//! 2. The body of the first two is one transaction, or an array of them, each of which is committed or
//!    prepared on its own. The body of the third is one decision of a transaction in doubt.
//! 3. `/in-doubt` lists the transactions in doubt to whoever may read.
//! 4. Before the log with which a primary began is confirmed, no key is read, nor what is in doubt
//!    (`Withheld`).
//! 5. 200 means that it is durable, 503 that nothing was written, 504 that a restart may find it or
//!    not. So a client that gets a 503 may ask again, and one that gets a 504 has to look first.
#![tactic(auto)]

// The outcome of a transaction.
mod outcome;
// Whether it commits or prepares.
mod manner;
// A transaction in doubt.
mod doubt;
// Who commits.
mod commits;
// Which request asks for commits, and who may ask.
mod denied;
mod entry;
mod guard;
// What a body asks for.
mod reading;
mod scan;
mod unread;
mod wanted;
// What is committed, and what the request is answered.
mod taking;
mod told;
// What is decided, and what is in doubt.
mod deciding;
// The response to that.
mod decision_text;
mod doubt_text;
mod failing_text;
mod filling;
mod members;
mod outcome_text;
mod told_text;
// The service of a thread.
mod asking;
// Reads that threads share.
mod lent;
// What is not read before the log with which a primary began is confirmed, and whether it is.
mod shown;
mod withheld;

pub use asking::Asking;
pub use commits::Commits;
pub use deciding::{decide, list};
pub use denied::Denied;
pub use doubt::Doubt;
pub use entry::{Entry, entry_of};
pub use guard::Guard;
pub use lent::Lent;
pub use manner::Manner;
pub use outcome::Outcome;
pub use reading::wanted_in;
pub use shown::Shown;
pub use taking::take;
pub use told::Told;
pub use unread::{MOST, Unread};
pub use wanted::Wanted;
pub use withheld::Withheld;
