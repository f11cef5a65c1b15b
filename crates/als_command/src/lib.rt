//! The command line of the program `als`: what its words ask for, and its help.
#![tactic(auto)]

// What the command line asks for.
mod command;
// The other nodes that a command names.
mod peers;
// Why words are no command.
mod no_command;
// The pages of help.
mod texts;
// A word of a command line.
mod word;
// Those of a backup, and of a node out of it.
mod backup_lines;
// The command lines, each with its words.
mod line;
// What the program's parser knows.
mod language;
// What the words ask for.
mod reading;

pub use command::Command;
pub use no_command::NoCommand;
pub use peers::Peers;
pub use reading::args;
