//! The writer of a primary from lines: it opens the folder of a primary and writes what each line asks for,
//! a transaction or a decision. It is a leader (als_lead) whose clients are the lines.
//!
//! 1. Who may write: a folder whose `role` says that it is a primary of its own epoch, or one that was
//!    taken over. A folder without a database is refused.
//! 2. What a crash left in mid-transaction is tidied first, in one force.
//! 3. Each line is planned, and refused or fed as a whole. A group of lines is forced once, and only then
//!    its lines are answered, in order, refusals too: no printed line tells of what a crash may take back.
//! 4. A line may prepare a transaction, and a later one decides it by the number that was printed, also
//!    after a restart.
//! 5. After each group its changes are redone, and after 4 MiB of log a checkpoint is taken. At the
//!    end everything is put on the devices.
#![tactic(auto)]

// What the command asks for.
mod committing;
// A line of the input.
mod input_lines;
// A line that cannot be read.
mod bad_line;
// When it may be printed.
mod truth;
// The line of an answer.
mod printing;
// The lines as clients.
mod lines;
// All of the command.
mod command;

pub use bad_line::BadLines;
pub use command::{Ending, commit};
pub use committing::Committing;
