ghost use Rattle.std.specs.Prelude.{◌≡◌, ◌<◌, ◌≤◌, ◌+◌, ◌^◌, not, true, false, length};
ghost use Rattle.als_analysis.specs.Open.{rows_of};
ghost use Rattle.als_dirty.specs.Rows.{IsNextRow};
ghost use Rattle.als_engine.specs.Events.{Reads, ShowsPage};
ghost use Rattle.als_engine.specs.Machine.{Keeps, state_of, state_from};
ghost use Rattle.als_engine.specs.Readers.{ended_in};
ghost use Rattle.als_pool.specs.Images.{IsPoolOf};
ghost use Rattle.als_pool.specs.Pooled.{leases_of};
ghost use Rattle.als_pool.specs.Queues.{WaitsFirst};
ghost use Rattle.als_record.specs.LogText.{end_of};
ghost use Rattle.als_record.specs.Table.{table_of};
ghost use Rattle.als_record.specs.Validity.{is_valid, IsValidLog};
ghost use Rattle.als_store.specs.Stored.{acknowledged, pending_of};
ghost use Rattle.als_store.specs.Takeover.{IsUnderTakeover, IsFinished, IsSealOf, is_primary};
ghost use Rattle.als_store.specs.Warm.{WasWarm};

use super::Engine;
use crate::fault::Fault;
use crate::status::{State, Status};
use als_analysis::OpenRow;
use als_disk::BlockDisk;
use als_page::Page;
use als_record::{LoggedPage, Lsn, Record};
use als_store::Phase;

impl<D: BlockDisk> Engine<D> {
    /// What the engine tells of itself.
    pub fn status(&self) -> Status
        ensures state { result.state ≡ state_of self.now.machine }
        ensures end { result.end.0 ≡ end_of self.now.machine.held.log }
        ensures partial { result.partial ≡ length self.now.machine.partial }
        ensures acknowledged { result.acknowledged.0 ≡ acknowledged self.now.machine.held }
        ensures pending { result.pending ≡ pending_of self.now.machine.held }
        ensures leases { result.leases ≡ leases_of self.now.machine.held.pool }
        // A page is lent only while changes wait for it.
        ensures lent { pending_of self.now.machine.held ≡ 0
            → leases_of self.now.machine.held.pool ≡ 0 }
        // The log reaches what is acknowledged.
        ensures stable { acknowledged self.now.machine.held ≤ end_of self.now.machine.held.log }
        // Readers have a list of published commits unless the engine is recovering. Each of its
        // commits is acknowledged.
        ensures listed { self.now.machine.listed ≡ not self.now.machine.held.recovering }
        ensures counted { self.now.machine.published ≤ ended_in self.now.machine.held }
        ensures unlisted { self.now.machine.listed ≡ false → self.now.machine.published ≡ 0 }
        // The log is valid.
        ensures valid { is_valid self.now.machine.held.log ≡ true }
        // Its records are those of the database, and each can be spelled.
        ensures log { IsValidLog self.now.machine.held.pages self.now.machine.held.log }
        // Log texts have less than 2^64 bytes, those of the partial record too.
        ensures fits { result.end.0 + result.partial < 2 ^ 64 }
        // What each control state that a crash may leave says of the log is true: past Following
        // the log is the sealed one and a front of its tail. So it is where the devices were sound
        // when the engine was made.
        ensures taken { WasWarm self.now.machine.held → IsUnderTakeover self.now.machine.held }
        // Past Following the seal is acknowledged.
        ensures seal { IsSealOf self.now.machine.held.control }
        // Then a finished takeover holds exactly what the transactions of the sealed log left that
        // are committed or in doubt, and then what their decisions leave, unless the engine is
        // recovering.
        ensures finished { WasWarm self.now.machine.held → self.now.machine.held.recovering ≡ false
            → is_primary self.now.machine.held ≡ true → IsFinished self.now.machine.held }
    {
        // For the prover alone: the receiver counts up to there, and what always holds of a
        // takeover.
        let _ = self.receiver.position();
        let _ = self.store.is_following();
        let _ = self.store.is_primary();
        let end = self.store.end();
        Status {
            state: state(
                self.store.is_broken(),
                self.store.is_recovering(),
                self.store.phase(),
                self.refused,
                end,
            ),
            end,
            partial: self.receiver.partial(),
            acknowledged: self.store.acknowledged(),
            pending: self.store.pending(),
            leases: self.store.leases(),
        }
    }

    /// The transaction table of the held log, in rising TransID.
    pub fn table(&self) -> &[OpenRow]
        ensures { rows_of result.now ≡ table_of self.now.machine.held.log }
    {
        self.store.table()
    }

    /// The database's page count.
    pub fn pages(&self) -> u32
        ensures { result ≡ self.now.machine.held.pages }
    {
        self.store.pages()
    }

    /// The dirty page table: the first row of a page from there on.
    pub fn dirty(&self, from: u32) -> Option<LoggedPage>
        ensures row { IsNextRow self.now.machine.held.pool.dirty from result }
        // There is one entry a page, and one queue of what waits, whatever the devices held.
        ensures count { length self.now.machine.held.pool.dirty ≡ self.now.machine.held.pages }
        ensures queues { length self.now.machine.held.pool.waits ≡ self.now.machine.held.pages }
        // Where the devices were sound when the engine was made: the pages, their images and their
        // rows are the log's, and no image has a page_LSN above what is acknowledged.
        ensures pool { WasWarm self.now.machine.held → IsPoolOf self.now.machine.held.log
            (acknowledged self.now.machine.held) self.now.machine.held.pool }
    {
        let _ = self.store.acknowledged();
        self.store.next_row(from)
    }

    /// The page as it is now: that of its frame, or else that of its block, which is read. Device:
    /// the read failed, which is counted. BadPage: the block is not that of the page, which never
    /// comes where the devices were sound when the engine was made.
    pub fn page_now(&mut self, page: u32) -> Result<Page, Fault>
        requires { page < self.old.machine.held.pages }
        ensures shows { ShowsPage self.old.machine page result self.new.machine }
        ensures keeps { Keeps self.old.machine self.new.machine }
        ensures told { self.new.tally ≡ self.old.tally }
        ensures book { self.new.book ≡ self.old.book }
    {
        self.page_now_in(page)
    }

    /// The query itself: what it keeps follows at the public call.
    fn page_now_in(&mut self, page: u32) -> Result<Page, Fault>
        requires { page < self.old.machine.held.pages }
        ensures shows { ShowsPage self.old.machine page result self.new.machine }
        ensures told { self.new.tally ≡ self.old.tally }
        ensures book { self.new.book ≡ self.old.book }
    {
        let found = self.store.page_now(page)?;
        Ok(found)
    }

    /// The held record at an LSN, read from the log device where it is no longer in memory. Device:
    /// a read failed. Memory: there was none for the rows of the end_chkpt that stands there; no
    /// other record takes any. A failed read is counted; else nothing changes.
    pub fn record_at(&mut self, lsn: Lsn) -> Result<Option<Record>, Fault>
        ensures reads { Reads self.old.machine lsn result self.new.machine }
        ensures keeps { Keeps self.old.machine self.new.machine }
        ensures told { self.new.tally ≡ self.old.tally }
        ensures book { self.new.book ≡ self.old.book }
    {
        self.record_at_in(lsn)
    }

    /// The query itself: what it keeps follows at the public call.
    fn record_at_in(&mut self, lsn: Lsn) -> Result<Option<Record>, Fault>
        ensures reads { Reads self.old.machine lsn result self.new.machine }
        ensures told { self.new.tally ≡ self.old.tally }
        ensures book { self.new.book ≡ self.old.book }
    {
        let found = self.store.record_at(lsn)?;
        Ok(found)
    }

    /// The first page from there on with pending changes.
    pub fn next_pending(&self, from: u32) -> Option<u32>
        ensures { WaitsFirst self.now.machine.held.pool.waits from result }
    {
        self.store.next_pending(from)
    }
}

/// What an engine is doing.
fn state(broken: bool, recovering: bool, phase: Phase, refused: Option<Fault>, end: Lsn) -> State
    ensures { result ≡ state_from broken recovering phase refused end.0 }
{
    if broken {
        return State::Stopped;
    }
    if recovering {
        return State::Recovering;
    }
    match phase {
        Phase::Following => match refused {
            None => State::Following,
            Some(fault) => State::Refusing { lsn: end, fault },
        },
        Phase::Sealed => State::Sealed,
        Phase::Primary => State::Primary,
    }
}
