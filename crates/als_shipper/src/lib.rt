//! What the sending end does on files and over the network: it ships a log text, a file that may grow,
//! or the acknowledged log of a node, to the next who comes for it.
//!
//! ```text
//!     FILE, DIR --Source---> serve_next -----Data---> who came      (als_ship: a frame an answer)
//!     FILE -----Growing----> serve_growing --Data---> who came      (als_sending: a window of frames)
//!                                ^------Acknowledged-----|
//! ```
//!
//! 1. Those who connect have five seconds to ask. The first whose question is whole is served, so a silent
//!    or slow peer delays nobody.
//! 2. A frame of a session takes limited time, read or written.
//! 3. Who asks what log it is, or for the rank of its node, is answered, and a session is waited for. Who asks
//!    for nothing is passed over, and sent nothing. The id of a follower's folder is read over: one is served.
//!
//! als_fanout serves up to eight followers at once, for as long as they come.
#![tactic(auto)]

// A reader, whole.
mod whole;
// Who comes to a shipper.
mod visitors;
// Who came and who went, for clauses alone.
mod history;
// A follower's question as bytes.
mod resume;
// Who came and is to ask.
mod asker;
// All who came and are to ask.
mod askers;
// A stream of a session, of which a frame takes limited time.
mod bounded;
// Since when an end of a session is waited for.
mod turn;
// Who asks a question in place of a session.
mod questions;
// The log of a file, by which questions are answered.
mod file_text;
// Its answers.
mod log_questions;
// Who connects to a listener.
mod callers;
// Receives the sessions that a shipper meets.
mod meeting;
// A session as the sending end, and what it prints.
mod shipping;
// The log of a node as what is shipped.
mod node_command;
// What a session over a log that grows reports of its follower.
mod sent;
// The next who comes, to a log that may grow.
mod growing_session;

pub use bounded::Bounded;
pub use callers::Callers;
pub use file_text::FileText;
pub use growing_session::serve_growing;
pub use log_questions::LogQuestions;
pub use meeting::{Meetings, Untold};
pub use node_command::{NodeShipping, ship_node};
pub use questions::{Questions, Unanswered};
pub use resume::{FRONT, LONGEST, RESUME, TAKEOVERS};
pub use shipping::{Shipping, asks_nothing, serve, serve_next, ship};
pub use visitors::Visitors;
pub use whole::read_whole;
