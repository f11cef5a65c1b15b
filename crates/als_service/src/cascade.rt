use als_cascade::Era;
use als_engine::History;
use als_followers::Tail;
use als_record::Lsn;
use std::alloc::{AllocError, Global};
use std::sync::{Arc, Wait};

/// What the events of a standby share with the sessions of its followers.
#[derive(Drop)]
pub struct Cascade {
    tail: Arc<Tail, Global>,
    era: Arc<Era, Global>,
}

impl Cascade {
    /// That of a standby which was opened with this history, and has acknowledged its log up to there.
    pub fn new(alloc: Global, end: Lsn, history: History) -> Result<Cascade, AllocError> {
        Ok(Cascade {
            tail: Arc::new(alloc, Tail::new(end))?,
            era: Arc::new(alloc, Era::new(history))?,
        })
    }

    /// The tail, for the sessions.
    pub fn tail(&self) -> Result<Arc<Tail, Global>, AllocError> {
        Arc::try_clone(&self.tail)
    }

    /// The era, for the sessions.
    pub fn era(&self) -> Result<Arc<Era, Global>, AllocError> {
        Arc::try_clone(&self.era)
    }

    /// A history was adopted.
    pub(crate) fn adopted<R: Wait>(&self, rt: &R, history: History) {
        self.era.turn(rt, history);
    }

    /// The control block was synced: what was adopted is durable, and so is the log up to there.
    pub(crate) fn synced<R: Wait>(&self, rt: &R, acknowledged: Lsn) {
        self.era.settle(rt);
        self.tail.raise(rt, acknowledged);
    }
}
