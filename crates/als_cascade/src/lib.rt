//! The log of a standby, for followers of its own: they get what the standby has acknowledged, while it
//! follows its primary.
//!
//! ```text
//! primary --session--> standby --adopt--> era: the history of its log, a number, whether it is durable
//!                        |                 |
//!                     ctl_sync --raise--> tail --log bytes--> under one era --> follower
//! ```
//!
//! 1. A follower gets acknowledged log alone, and the history that was adopted before all of it came.
//! 2. A session begins only once the standby's history is durable.
//! 3. A session ends once the standby has adopted another history. Its follower asks again, and is sent
//!    that one.
//! 4. A session asks for the end of the log first, and for the number of the era before it writes. What was
//!    acknowledged before the number was read was acknowledged before another adoption, so no byte of a
//!    new epoch is sent as one of the old.
//! 5. A session with a follower that has all of it beats only while the standby's own primary sends, and ends
//!    else: so a follower is healthy only while the standby is sent to.
#![tactic(auto)]

// The history that a standby adopted last.
mod adopted;
// The same under its lock.
mod era;
// A stream to a follower under one history.
mod under_era;
// What sessions send.
mod standby_source;

pub use adopted::Adopted;
pub use era::Era;
pub use standby_source::StandbySource;
pub use under_era::UnderEra;
