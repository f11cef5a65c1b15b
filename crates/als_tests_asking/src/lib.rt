//! Tests of what a request for commits is answered. They use public names alone.
#![tactic(auto)]

// Commits and reads of these tests.
#[cfg(test)]
mod acting;
// Outcomes, and what they are answered.
#[cfg(test)]
mod outcomes;
// Transactions that are prepared, and decisions.
#[cfg(test)]
mod decisions;
// Requests that commit nothing.
#[cfg(test)]
mod refusals;
// What is not read before it is confirmed.
#[cfg(test)]
mod withholding;
