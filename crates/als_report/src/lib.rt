//! What a node reports of itself and reads of its keys, and the texts of both. Nothing here knows of HTTP.
//!
//! ```text
//!     session --set_*, note_*--> Board (cells) --Watch--> Report --status_text, metrics_text, health_text-->
//!     view ----------------------------------> Reader --read--> Answer or Unread --value_text, unread_text-->
//!                                                     --read_many--> Many --many_text-->
//! ```
//!
//! 1. A board is cells: the session stores, threads that report load, and nobody waits for anybody.
//! 2. A frame counts once it is acknowledged: what a refused session sent changes no state.
//! 3. A report is read number by number, the end after the acknowledged LSN, so that it never has an end
//!    below what it says is acknowledged.
//! 4. A read names the LSN that it may not be older than; each text is that of its tokens, exactly.
#![tactic(auto)]

// What a session last saw of its node, in cells.
mod board;
// A follower of a primary, its row on a board, and the cells of such rows.
mod follower;
mod follower_cells;
mod follower_row;
// What a node reports.
mod report;
// Who reports.
mod reports;
// What a node is doing.
mod state;
// What a primary committed, and the cells of that; what it refused.
mod refusals;
mod work;
mod work_cells;
// A key is read, and how many commits are published; many keys are; why one is not.
mod reading;
mod reading_many;
mod unread;
// Members of a JSON object.
mod members;
// Texts in JSON: of errors, of many keys' values, of what a primary reports beside, of a report, of a key's
// value.
mod errors;
mod many;
mod primary_text;
mod report_text;
mod values;
// A report as metrics, and what a primary reports beside.
mod metrics;
mod primary_metrics;

pub use board::{Board, Watch};
pub use errors::{error_text, unread_text};
pub use follower::Follower;
pub use follower_row::FollowerRow;
pub use many::many_text;
pub use metrics::{VERSION, metrics_text};
pub use reading::{published, read};
pub use reading_many::read_many;
pub use refusals::Refusals;
pub use report::{
    MOST_FOLLOWERS, MOST_IN_DOUBT, MOST_TAKEOVERS, MOST_TRANSACTIONS, PATIENCE, QUIET, Report,
};
pub use report_text::{health_text, primary_flag_text, standby_flag_text, status_text};
pub use reports::Reports;
pub use state::State;
pub use unread::Unread;
pub use values::value_text;
pub use work::Work;
