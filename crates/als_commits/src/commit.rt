use crate::writes::Writes;
use als_record::{Lsn, TransId};
use std::marker::Model;

/// A committed transaction: the LSN of its commit record, and its surviving writes in order.
#[derive(Drop)]
pub struct Commit {
    pub trans: TransId,
    pub lsn: Lsn,
    pub writes: Writes,
}

impl Model for Commit {
    ghost use Rattle.als_record.specs.Commits.{Commit};

    ghost Value = { Commit };

    ghost view = { λ c. record { trans = c.trans; lsn = c.lsn; writes = c.writes } };
}
