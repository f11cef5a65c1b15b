use crate::cuts::Cuts;
use crate::deed::{Deed, Given};
use crate::stop::Stop;
use crate::values::Values;
use als_engine::{Decision, Events, Writes};
use als_record::{Lsn, TransId};
use als_writer::{Set, Written};
use std::alloc::Global;

/// What a writer was answered, kept apart from its engine.
#[derive(Drop)]
pub struct Book {
    /// What was answered as written, in order. A crash may take that back which was not forced.
    given: Vec<Given>,
    /// How much of it was forced.
    forced: usize,
    /// What crashes cut.
    cuts: Cuts,
}

impl Book {
    /// Nothing was written.
    pub fn new(alloc: Global) -> Book {
        Book {
            given: Vec::new(alloc),
            forced: 0,
            cuts: Cuts::NONE,
        }
    }

    /// What crashes cut.
    pub fn cuts(&self) -> Cuts {
        self.cuts
    }

    /// An opening found a log that is owed records.
    pub fn note_owed(&mut self) {
        self.cuts.unended = self.cuts.unended.saturating_add(1);
    }

    /// How much was written.
    pub fn count(&self) -> usize {
        self.given.len()
    }

    /// How many transactions in doubt were decided.
    pub fn decided(&self) -> u64 {
        let mut count = 0u64;
        for given in self.given.iter() {
            if matches!(given.deed, Deed::Decided(_)) {
                count = count.saturating_add(1);
            }
        }
        count
    }

    /// Makes room for one more deed, before it is done.
    pub fn reserve(&mut self) -> Result<(), Stop> {
        match self.given.reserve(1) {
            Ok(()) => Ok(()),
            Err(_) => Err(Stop::Memory),
        }
    }

    /// A deed was answered as written.
    pub fn note(&mut self, deed: Deed, written: Written) -> Result<(), Stop> {
        match self.given.push(Given { deed, written }) {
            Ok(()) => Ok(()),
            Err(_) => Err(Stop::Memory),
        }
    }

    /// All that was written is durable.
    pub fn note_force(&mut self) {
        self.forced = self.given.len();
    }

    /// The first transaction in doubt.
    pub fn doubt(&self) -> Option<TransId> {
        for given in self.given.iter() {
            if matches!(given.deed, Deed::Prepared(_)) && !self.is_decided(given.written.trans) {
                return Some(given.written.trans);
            }
        }
        None
    }

    /// How many transactions are in doubt.
    pub fn doubts(&self) -> usize {
        let mut count = 0usize;
        for given in self.given.iter() {
            if matches!(given.deed, Deed::Prepared(_)) && !self.is_decided(given.written.trans) {
                count = count.saturating_add(1);
            }
        }
        count
    }

    /// Whether a transaction in doubt was decided.
    fn is_decided(&self, trans: TransId) -> bool {
        for given in self.given.iter() {
            if matches!(given.deed, Deed::Decided(_)) && given.written.trans == trans {
                return true;
            }
        }
        false
    }

    /// What a transaction that was prepared sets.
    fn prepared(&self, trans: TransId) -> &[Set] {
        for given in self.given.iter() {
            if let Deed::Prepared(transaction) = &given.deed {
                if given.written.trans == trans {
                    return transaction.sets.as_slice();
                }
            }
        }
        &[]
    }

    /// What each key has by all that was written, and who holds it.
    pub fn values(&self, alloc: Global) -> Result<Values, Stop> {
        let mut values = Values::new(alloc)?;
        for given in self.given.iter() {
            match &given.deed {
                Deed::Committed(transaction) => values.set(transaction.sets.as_slice()),
                Deed::Decided(Decision::Commit) => values.set(self.prepared(given.written.trans)),
                Deed::Decided(Decision::Rollback) | Deed::Prepared(_) => {}
            }
        }
        for given in self.given.iter() {
            if let Deed::Prepared(transaction) = &given.deed {
                if !self.is_decided(given.written.trans) {
                    values.hold(transaction.sets.as_slice(), given.written.trans);
                }
            }
        }
        Ok(values)
    }

    /// An engine was opened after a crash: whether it has all that was forced, and nothing out of
    /// order. What it has not is struck out.
    pub fn settle<E: Writes>(&mut self, engine: &mut E) -> Result<(), Stop> {
        let count = self.found(engine)?;
        if count < self.forced {
            return Err(Stop::Lost("what was forced"));
        }
        let lost = self.given.len().saturating_sub(count);
        self.cuts.lost = self.cuts.lost.saturating_add(lost as u64);
        self.given.truncate(count);
        Ok(())
    }

    /// How much of what was written an engine's log has, from the first on.
    fn found<E: Events>(&self, engine: &mut E) -> Result<usize, Stop> {
        let mut count = 0usize;
        for given in self.given.iter() {
            if !is_found(engine, given)? {
                break;
            }
            count = count.saturating_add(1);
        }
        Ok(count)
    }

    /// The LSN of the last commit. 0: no commit.
    fn last_commit(&self) -> Lsn {
        let mut last = Lsn(0);
        for given in self.given.iter() {
            if given.deed.commits() {
                last = given.written.lsn;
            }
        }
        last
    }

    /// Whether an engine has what was written, and nothing else: in its log and in its pages.
    pub fn check<E: Writes>(&self, alloc: Global, engine: &mut E) -> Result<(), Stop> {
        let numbers = engine.writing();
        if numbers.last_commit != self.last_commit() {
            return Err(Stop::Lost("a commit that was not answered"));
        }
        if numbers.unended != self.doubts() {
            return Err(Stop::Lost("what an unwritten transaction left"));
        }
        let values = self.values(alloc)?;
        values.check(&*engine)?;
        values.check_pages(engine)
    }
}

/// Whether an engine's log has the record of a deed at its place.
fn is_found<E: Events>(engine: &mut E, given: &Given) -> Result<bool, Stop> {
    let Some(found) = engine.record_at(given.written.lsn)? else {
        return Ok(false);
    };
    Ok(found.trans == given.written.trans && given.deed.is_said_by(&found.body))
}
