//! What a leader and the sessions of its followers share: up to where its log may be read, and what the
//! followers acknowledged.
//!
//! ```text
//! leader  --raise, ask--> tail --wait_past--> session: reads the log below it, and notes the round of each frame
//! session --join--> a seat --acknowledge--> its row's LSN and round rise --leave--> the seat is free
//! leader  --wait_for(k, wanted)--> sleeps until k folders at addresses that count have acknowledged wanted.lsn in a
//!                                  frame of wanted.round or later
//! ```
//!
//! 1. Each session has a seat, and each seat a row: the address, the id of the follower's folder, and the
//!    greatest LSN that the session acknowledged. A row's LSN never falls, and neither does the tail.
//! 2. Whose word counts is settled once, when the quorum is made: addresses of some blocks, or all. It is
//!    looked up where the acknowledgements are counted, by the address of the row, so that no session says
//!    it of itself.
//! 3. A folder counts once, whatever address its follower comes from, and has one seat: else a follower that
//!    hangs and comes back from another address could count twice. Where a follower sends no id, its address
//!    counts once, however many sessions it has. An IPv4-mapped IPv6 address counts as its IPv4 address.
//! 4. When a session ends, its LSN is forgotten. The follower may come back with an older log, or another
//!    machine at its address, so it has to acknowledge again.
//! 5. A round begins where its leader asks whether it is followed still: each session sends a frame, if it sends none
//!    for another reason. A row has the round in which the frame was sent that its follower answered last, so a
//!    leader that nobody follows any more gets no round, whatever its rows acknowledged before.
//! 6. Waiting threads are woken when a row or the tail rises and when it closes, and wait for a limited
//!    time.
#![tactic(auto)]

// The id of a follower's folder.
mod folder_id;
// By what a follower counts once.
mod name;
// The follower of one seat.
mod row;
// The same as it is shown.
mod member;
// The rows of all seats.
mod roll;
// How many followers vouch for an LSN.
mod counting;
// Whether a roll has enough, and the roll.
mod tally;
// What a leader waits for.
mod wanted;
// The roll under its lock.
mod quorum;
// Up to where a log may be read.
mod reach;
// The same under its lock.
mod tail;

pub use folder_id::FolderId;
pub use member::Member;
pub use name::Name;
pub use quorum::Quorum;
pub use reach::Reach;
pub use roll::{Roll, SEATS};
pub use row::Row;
pub use tail::Tail;
pub use tally::Tally;
pub use wanted::Wanted;
