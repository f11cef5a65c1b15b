//! What the program does as a standby, on files and over the network: it follows a log, makes a primary of
//! a standby, and decides what is in doubt.
#![tactic(auto)]

// Why a command is refused.
mod fault;
// One checkpoint.
mod checkpointing;
// The pages and a checkpoint onto the devices.
mod storing;
// All that is held onto the devices.
mod settling;
// All parts of a takeover.
mod taking_over;
// What is done between the frames of a session.
mod upkeep;
// How long a connection may be silent.
mod patience;
// The engine of a folder.
mod opening;
// A connection of which something was read and written before.
mod line;
// What came to the questions for a source's rank, for clauses alone.
mod replies;
// The id of a folder, as it has it or gets it.
mod naming;
// What is said to a source in front of a session.
mod introducing;
// A primary is asked before there is a database.
mod greeting;
// A primary's folder that becomes a standby's again.
mod leading;
// A log that has little room left.
mod nearly_full;
// The folder of a standby, held and opened.
mod holding;
// A session of a standby.
mod following;
// What a standby is asked to follow, and what it prints in the end.
mod standby_command;
// A transaction in doubt is decided.
mod deciding;
// Takeovers that a folder's log never reached.
mod forgetting;
// A standby that becomes a primary.
mod takeover_command;
// A primary that decides a transaction in doubt.
mod resolve_command;
// The engine of a primary's folder.
mod primary_folder;

pub use checkpointing::checkpoint;
pub use deciding::decide;
pub use fault::Fault;
pub use following::follow;
pub use forgetting::{Extent, Forgets, extent_of, forget};
pub use holding::{Held, hold};
pub use introducing::{Introducing, Takes};
pub use line::Line;
pub use nearly_full::NearlyFull;
pub use opening::{check_pages_fit, named, own_devices, reopen};
pub use patience::{bound, dial, silence};
pub use primary_folder::{begin_primary, open_primary};
pub use replies::{Replies, Reply};
pub use resolve_command::{Verdict, resolve};
pub use settling::settle;
pub use standby_command::{Following, PENDING, conclude};
pub use takeover_command::{TakenOver, takeover};
pub use taking_over::{take_over, take_over_telling};
pub use upkeep::StandbyUpkeep;
