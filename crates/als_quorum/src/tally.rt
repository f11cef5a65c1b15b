ghost use Rattle.std.specs.Prelude.{◌≡◌};
ghost use Rattle.als_quorum.specs.Tallies.{IsTallyOf, rows_of};

use crate::roll::Roll;
use crate::wanted::Wanted;
use als_callers::Allowed;
use std::snapshot::Snapshot;

/// Whether a roll has enough followers that have acknowledged what is wanted.
#[derive(Drop)]
pub struct Tally {
    pub is_enough: bool,
    /// The round that was wanted.
    pub round: u64,
    /// The roll that was looked at, for clauses only: it takes no bytes.
    roll: Snapshot<Roll>,
}

impl Tally {
    /// Whether `count` followers of different names, at addresses that count, have acknowledged what is wanted.
    pub fn of(roll: &Roll, allowed: &Allowed, count: u32, wanted: Wanted) -> Tally
        ensures enough { IsTallyOf allowed.now.blocks.items count wanted.lsn.0 result }
        ensures round { result.round ≡ wanted.round }
        ensures rows { rows_of result ≡ roll.now.rows.items }
    {
        Tally {
            is_enough: roll.has_enough(allowed, count, wanted),
            round: wanted.round,
            roll: Snapshot::of(roll),
        }
    }
}
