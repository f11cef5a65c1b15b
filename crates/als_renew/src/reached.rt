use als_record::{Lsn, TransId};

/// How far a log is written.
#[derive(Clone, Copy)]
pub(crate) struct Reached {
    /// Where it ends.
    pub end: Lsn,
    /// Its greatest TransID, 0 without one.
    pub greatest: TransId,
}
