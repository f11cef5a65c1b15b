use als_record::{Fault, Lsn};
use thiserror::Error;

/// Bytes that are refused: the offset in the log text at which the record should stand, and why it
/// is none.
#[derive(Clone, Copy, Debug, PartialEq, Eq, Error)]
#[error("{fault} at {}", lsn.0)]
pub struct Refusal {
    pub lsn: Lsn,
    pub fault: Fault,
}
