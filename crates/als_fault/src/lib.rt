//! The faults of all crates: their numbers, their names, and how programs print them.
#![tactic(auto)]

// Each way in which a call is refused.
mod fault_kind;

pub use fault_kind::FaultKind;
