//! The threads that serve over HTTP what a node reports and what its readers see.
//!
//! ```text
//!     peer --connects--> accept --place free--> its thread: serve, one request after another --> closed
//!                          |no place             request --query_of--> Query --reply--> Reply --show--> response
//!                          '--> guest of the thread that accepted, or of the spare one: one answer --> closed
//! ```
//!
//! 1. A thread has a reader and a reporter of its own, so no request waits for the engine or for another
//!    thread.
//! 2. A thread waits for its own peer only, and for a limited time: silence, a request, a response and a
//!    connection each have a limit. So slow peers end by themselves.
//! 3. The spare thread waits for nobody. While every other thread has a connection, it answers one request
//!    of whoever connects: so slow peers, however many, shut nobody out.
//! 4. No guest waits for the answer to another one, if its request reads. Requests that may wait stand in a
//!    line, and one thread answers them; if it is full, they are refused at once.
//! 5. One peer has at most one connection less than there are waiting threads, if there are several.
//! 6. A read that names how long it may wait (`Als-Wait`) is asked again by the thread of its connection,
//!    with no lock and no place in a copy held meanwhile. A guest's does not wait.
//! 7. What a request is (`query_of`), what it is answered (`Reply`) and the response (`show`) make no system
//!    call, and are proved exactly. Times and sockets are tested.
#![tactic(auto)]

// What answers requests.
mod answering;
// What a path asks for.
mod asked;
mod asking;
// Fills a response by a reply.
mod filling;
// Which hosts a request may name.
mod hosts;
// The header fields of the page's texts.
mod page_fields;
// What a request asks for.
mod query;
// The reply to a query.
mod reply;
// The query of a request.
mod telling;
// What is wrong with a request, as JSON.
mod wrong_text;
// The thread that answers requests that may wait.
mod clerk;
// The connections that the threads have.
mod connections;
// What each thread does.
mod duty;
// A connection of the spare thread.
mod guest;
// Times and sizes.
mod limits;
// The guests whose requests may wait.
mod line;
// Where the threads listen.
mod listening;
// A stream whose peer has limited time.
mod peer;
// The threads.
mod servers;
// What a thread does.
mod serving;
// What all connections of a listener have in common.
mod terms;
// What the spare thread does.
mod spare;
// How long a peer has been asking, and being answered.
mod turn;
// The last answer of a connection says that it is.
mod leaving;
// A read that may wait is asked again.
mod patient;

pub use answering::Answering;
pub use asked::Asked;
pub use asking::asked_by;
pub use hosts::{Hosts, is_own};
pub use limits::{MOST_THREADS, THREADS, config, config_with};
pub use listening::listen;
pub use query::{Query, Wrong};
pub use reply::Reply;
pub use servers::Servers;
pub use telling::{AT_LEAST, WAIT, query_of};
