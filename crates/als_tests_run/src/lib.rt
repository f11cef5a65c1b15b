//! Tests of an engine that goes to another thread, and of threads that share one. They use public names alone.
#![tactic(auto)]

// Log texts, record by record.
#[cfg(test)]
mod spelled;
// What a standby answers, as numbers.
#[cfg(test)]
mod answers;
// All events and queries, one after another.
#[cfg(test)]
mod scripts;
// Pages, as numbers, and redo in one thread.
#[cfg(test)]
mod pages;
// What paces the threads of a run.
#[cfg(test)]
mod pace;
// What a thread of a run does.
#[cfg(test)]
mod seats;
// A run: its threads begin, and are joined.
#[cfg(test)]
mod conducting;
// The engines that the tests drive.
#[cfg(test)]
mod standbys;
// A lock over an engine, and a session in a thread of its own.
#[cfg(test)]
mod sharing;
// Handles of a shared engine, one a thread.
#[cfg(test)]
mod shares;
// A queue that is full.
#[cfg(test)]
mod waiting;
// Two workers at the same time.
#[cfg(test)]
mod workers;
// What a handle answers, beside its engine.
#[cfg(test)]
mod handles;
// Readers in threads, beside handles.
#[cfg(test)]
mod readers;
// Workers, and a dispatcher, to equal pages.
#[cfg(test)]
mod redoing;
// All threads at once, over a large database.
#[cfg(test)]
mod stress;
// A lease that is kept over a crash.
#[cfg(test)]
mod strangers;
