//! Tests of the program `als`: record lines, scripts, its command line, its streams, and its commands
//! on files, with what it prints. They use public names alone.
#![tactic(auto)]

// An allocation fails once at most: a test that meets one is run once more.

// A row of a table, and how it is run.
#[cfg(test)]
mod row;
// `als make`.
#[cfg(test)]
mod making;
// The script language: its bad lines.
#[cfg(test)]
mod language;
// What is said beside what a command answers.
#[cfg(test)]
mod explaining;
// Transactions in doubt.
#[cfg(test)]
mod deciding;
// The command line.
#[cfg(test)]
mod asking;
// Streams that fail or are too long.
#[cfg(test)]
mod streams;
// `als ship`.
#[cfg(test)]
mod shipping;
// `als standby`, `als takeover`, `als verify` and `als dump`.
#[cfg(test)]
mod following;
// Sessions of ends that go on, and what ends them all the same.
#[cfg(test)]
mod going_on;
// A takeover beside nodes that hold more, and commits that are lost.
#[cfg(test)]
mod weighing;
// A takeover of one of two standbys, and what the others do then.
#[cfg(test)]
mod three_nodes;
// The files of a standby's folder.
#[cfg(test)]
mod folder;
// A folder of which a file is damaged: which one that is.
#[cfg(test)]
mod damaging;
// Pages that are laid out anew.
#[cfg(test)]
mod rebuilding;
// A redo that takes long.
#[cfg(test)]
mod progressing;
// `als commit`.
#[cfg(test)]
mod committing;
// Who may commit to `als primary`.
#[cfg(test)]
mod guarding;
// A new database.
#[cfg(test)]
mod laying_out;
// Looks back in a log.
#[cfg(test)]
mod looking_back;
// A primary that has another log.
#[cfg(test)]
mod other_log;
