//! Tests of the view that readers never wait for. They use public names alone.
#![tactic(auto)]

// A publisher by itself, and under a lock.
#[cfg(test)]
mod publisher;
// What is given back where a view ends.
#[cfg(test)]
mod ending;
// Many keys of one front.
#[cfg(test)]
mod many;
// What a log shows.
#[cfg(test)]
mod showing;
// Readers in threads, beside a standby.
#[cfg(test)]
mod standby;
// Readers in threads, beside a publisher.
#[cfg(test)]
mod threads;
// Transactions, spelled.
#[cfg(test)]
mod written;
