//! Tests of als_cascade.
#![tactic(auto)]

// Adoptions, and a session that one of them ends.
#[cfg(test)]
mod eras;
