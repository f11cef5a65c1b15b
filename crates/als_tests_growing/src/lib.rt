//! Tests of als_shipper over a log that grows. They use public names alone.
#![tactic(auto)]

// A log text, and a session of it.
#[cfg(test)]
mod made;
// Who comes to a log that grows.
#[cfg(test)]
mod growing;
