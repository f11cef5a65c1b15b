//! All of the program `als`, over any streams.
#![tactic(auto)]

// Which streams are terminals.
mod terminals;
// What the program says beside what it answers.
mod remarks;
// Why a command on files is refused.
mod refusal;
// A log that has another size than was asked for.
mod log_sizes;
// Which file is wrong, in plain words.
mod troubles;
// How long work goes on.
mod redo_lines;
// Each page is what the log makes of it.
mod sound_pages;
// A standby waits for its folder.
mod patience;
// A standby whose log parted from its primary's.
mod partings;
// What a node loses that is taken back.
mod loss_lines;
// A node's rank beside those of its peers.
mod weighing;
// Whom a shipper meets.
mod meeting_lines;
// Why the program ends without having done what it was asked.
mod failure;
// `als make`.
mod make;
// Why standard input is not taken.
mod input_fault;
// Standard input, whole.
mod input;
// The commands that read standard input.
mod lines;
// Which option is refused.
mod options;
// `als new`.
mod laying_out;
// `als commit`.
mod committing;
// Who may not follow, and was reported.
mod strangers;
// What a primary says.
mod serving_lines;
// `als primary`.
mod serving;
// `als backup`, `als restore`.
mod backing_up;
// The commands on files.
mod files;
// What the command line asks for is done.
mod running;

pub use failure::Failure;
pub use running::{program, program_on};
pub use terminals::Terminals;
