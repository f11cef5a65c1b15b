use crate::ask::Ask;
use crate::set::Set;

/// The sets that a transaction may have, and the asks. All of its records are one piece of less than
/// 65,536 bytes then.
pub const LIMIT: usize = 600;

/// A transaction: where each ask holds, each key is set, all in one commit.
#[derive(Drop)]
pub struct Transaction {
    pub asks: Vec<Ask>,
    pub sets: Vec<Set>,
}
