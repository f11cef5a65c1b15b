//! Tests of what a standby answers over HTTP. They use public names alone.
#![tactic(auto)]

// Requests over bytes in memory.
#[cfg(test)]
mod asking;
// Reads of many keys.
#[cfg(test)]
mod reads;
// What a session tells of its standby.
#[cfg(test)]
mod boards;
// The page.
#[cfg(test)]
mod page;
// The roles that load balancers ask for.
#[cfg(test)]
mod roles;
// What a primary reports.
#[cfg(test)]
mod primary;
// Threads that serve a listener of the loopback.
#[cfg(test)]
mod loopback;
// Guests of threads that commit.
#[cfg(test)]
mod guests;
// The last answer of a connection.
#[cfg(test)]
mod leaving;
// Transactions, spelled.
#[cfg(test)]
mod written;
