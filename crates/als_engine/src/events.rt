ghost use Rattle.std.specs.Prelude.{◌≡◌, ℕ, ◌+◌, ◌<◌, ◌^◌, List, IfOk, IfErr};
ghost use Rattle.als_record.specs.Table.{table_of};
ghost use Rattle.als_pool.specs.Queues.{WaitsFirst};
ghost use Rattle.als_dirty.specs.Rows.{IsNextRow};
ghost use Rattle.als_engine.specs.declared.event.Event.TheVariants as event;
ghost use Rattle.als_engine.specs.declared.fault.Fault.TheVariants as fault;
ghost use Rattle.als_engine.specs.Machine.{Machine, Keeps};
ghost use Rattle.als_engine.specs.Refusals.{feed_refusal};
ghost use Rattle.als_engine.specs.Feeds.{Feeds};
ghost use Rattle.als_engine.specs.Events.{Resyncs, FlushesOne, PagesSync};
ghost use Rattle.als_engine.specs.Events.{LogWrites, LogSyncs, MarkWrites, ControlSyncs};
ghost use Rattle.als_engine.specs.Events.{Reads, ShowsPage};
ghost use Rattle.als_engine.specs.Checkpointing.{CkptBegins, CkptWrites, CkptPublishes};
ghost use Rattle.als_engine.specs.Leases.{Lends, Gives, Recalls};
ghost use Rattle.als_engine.specs.Publishing.{PublishesView, TellsReaders};
ghost use Rattle.als_engine.specs.Readers.{book_told};
ghost use Rattle.logbook.specs.Pages.{Book};
ghost use Rattle.als_engine.specs.Readiness.{Readies};
ghost use Rattle.als_engine.specs.Takeover.{Adopts, Seals, UndoesOneOf, ResolvesOf, Finishes};
ghost use Rattle.als_store.specs.Takeover.{history_of};
ghost use Rattle.als_engine.specs.Tally.{TellsOk, TellsTaken};
ghost use Rattle.als_engine.specs.Telling.{Tells, Stands, IsGrown};

use crate::fault::Fault;
use crate::fed::{Fed, FeedFault};
use crate::not_given::NotGiven;
use crate::status::Status;
use als_epochs::History;
use als_lease::PageLease;
use als_page::Page;
use als_record::{LoggedPage, Lsn, Record, TransId, TransactionRow};
use als_store::Decision;
use als_view::Told;
use std::alloc::Global;
use std::sync::Wait;

/// What a standby is driven by: its events, and the queries that ask it. An engine has them; so has
/// a handle of an engine that others drive too, of which the small machine says nothing. Whoever
/// drives it, each event made by these calls is counted, and no other one.
pub trait Events {
    /// Nobody else makes events: each call is one step of the small machine.
    ghost alone: { Type 0 };

    /// That machine, where nobody else makes events.
    ghost machine: { Self → Machine };

    /// How often each event answered Ok by these calls, and how many bytes feed took.
    ghost tally: { Self → List ℕ };

    /// Which view its readers have. It stays the same.
    ghost book: { Self → Book };

    // ---- the events

    /// Takes a piece of the primary's log.
    fn feed(&mut self, piece: &[u8]) -> Result<Fed, FeedFault>
        ensures feeds { alone → Feeds (machine self.old) piece.now (feed_refusal (machine self.old))
            result (machine self.new) }
        ensures keeps { alone → Keeps (machine self.old) (machine self.new) }
        // The bytes taken are counted, of a feed that is refused too.
        ensures told { TellsTaken result (tally self.old) (tally self.new) }
        ensures book { book self.new ≡ book self.old };

    /// Drops the partial record, and takes the log again after a refusal.
    fn resync(&mut self) -> Result<(), Fault>
        ensures resyncs { alone → Resyncs (machine self.old) result (machine self.new) }
        ensures keeps { alone → Keeps (machine self.old) (machine self.new) }
        ensures told { TellsOk event.Resync result (tally self.old) (tally self.new) }
        ensures book { book self.new ≡ book self.old };

    /// Lends a page with the first changes that wait for it: the lease redoes them with no engine,
    /// and `give` takes it in.
    fn lend(&mut self, page: u32) -> Result<PageLease, Fault>
        ensures lends { alone → Lends (machine self.old) page result (machine self.new) }
        ensures keeps { alone → Keeps (machine self.old) (machine self.new) }
        ensures told { TellsOk event.Lend result (tally self.old) (tally self.new) }
        ensures book { book self.new ≡ book self.old }
        // Nothing is redone of a new lease.
        ensures fresh { IfOk result (λ lease. lease.done ≡ 0) };

    /// Takes a lease in, if it is the one that is out for its page; else it comes back.
    fn give(&mut self, lease: PageLease) -> Result<(), NotGiven>
        ensures gives { alone → Gives (machine self.old) lease result (machine self.new) }
        ensures keeps { alone → Keeps (machine self.old) (machine self.new) }
        ensures told { TellsOk event.Give result (tally self.old) (tally self.new) }
        ensures book { book self.new ≡ book self.old }
        // It is that lease that comes back.
        ensures back { IfErr result (λ refused. refused.lease ≡ lease) };

    /// Ends the lease of a page: its changes wait on.
    fn recall(&mut self, page: u32) -> Result<(), Fault>
        ensures recalls { alone → Recalls (machine self.old) page result (machine self.new) }
        ensures keeps { alone → Keeps (machine self.old) (machine self.new) }
        ensures told { TellsOk event.Recall result (tally self.old) (tally self.new) }
        ensures book { book self.new ≡ book self.old };

    /// Writes a page to its block, if the log is acknowledged past its page_LSN.
    fn flush(&mut self, page: u32) -> Result<(), Fault>
        ensures flushes { alone → FlushesOne (machine self.old) page result (machine self.new) }
        ensures keeps { alone → Keeps (machine self.old) (machine self.new) }
        ensures told { TellsOk event.Flush result (tally self.old) (tally self.new) }
        ensures book { book self.new ≡ book self.old };

    /// Syncs the pages' device.
    fn sync_pages(&mut self) -> Result<(), Fault>
        ensures syncs { alone → PagesSync (machine self.old) result (machine self.new) }
        ensures keeps { alone → Keeps (machine self.old) (machine self.new) }
        ensures told { TellsOk event.SyncPages result (tally self.old) (tally self.new) }
        ensures book { book self.new ≡ book self.old };

    /// Writes the first block of the log with unwritten bytes.
    fn log_write(&mut self) -> Result<(), Fault>
        ensures writes { alone → LogWrites (machine self.old) result (machine self.new) }
        ensures keeps { alone → Keeps (machine self.old) (machine self.new) }
        ensures told { TellsOk event.LogWrite result (tally self.old) (tally self.new) }
        ensures book { book self.new ≡ book self.old };

    /// Syncs the log.
    fn log_sync(&mut self) -> Result<(), Fault>
        ensures syncs { alone → LogSyncs (machine self.old) result (machine self.new) }
        ensures keeps { alone → Keeps (machine self.old) (machine self.new) }
        ensures told { TellsOk event.LogSync result (tally self.old) (tally self.new) }
        ensures book { book self.new ≡ book self.old };

    /// Writes the control block with the log's synced end as its mark.
    fn mark_write(&mut self) -> Result<(), Fault>
        ensures writes { alone → MarkWrites (machine self.old) result (machine self.new) }
        ensures keeps { alone → Keeps (machine self.old) (machine self.new) }
        ensures told { TellsOk event.MarkWrite result (tally self.old) (tally self.new) }
        ensures book { book self.new ≡ book self.old };

    /// Syncs the control block, and answers its mark: the acknowledged LSN.
    fn ctl_sync(&mut self) -> Result<Lsn, Fault>
        ensures syncs { alone → ControlSyncs (machine self.old) result (machine self.new) }
        ensures keeps { alone → Keeps (machine self.old) (machine self.new) }
        ensures told { TellsOk event.ControlSync result (tally self.old) (tally self.new) }
        ensures book { book self.new ≡ book self.old };

    /// Begins a checkpoint: copies both tables and the end of the log.
    fn ckpt_begin(&mut self) -> Result<(), Fault>
        ensures begins { alone → CkptBegins (machine self.old) result (machine self.new) }
        ensures keeps { alone → Keeps (machine self.old) (machine self.new) }
        ensures told { TellsOk event.CkptBegin result (tally self.old) (tally self.new) }
        ensures book { book self.new ≡ book self.old };

    /// Writes the next block of the checkpoint.
    fn ckpt_block(&mut self) -> Result<(), Fault>
        ensures writes { alone → CkptWrites (machine self.old) result (machine self.new) }
        ensures keeps { alone → Keeps (machine self.old) (machine self.new) }
        ensures told { TellsOk event.CkptBlock result (tally self.old) (tally self.new) }
        ensures book { book self.new ≡ book self.old };

    /// Publishes the checkpoint.
    fn ckpt_publish(&mut self) -> Result<(), Fault>
        ensures publishes { alone → CkptPublishes (machine self.old) result (machine self.new) }
        ensures keeps { alone → Keeps (machine self.old) (machine self.new) }
        ensures told { TellsOk event.CkptPublish result (tally self.old) (tally self.new) }
        ensures book { book self.new ≡ book self.old };

    /// Publishes for readers the commits that are acknowledged.
    fn publish_view<R: Wait>(&mut self, rt: &R) -> Result<(), Fault>
        ensures publishes { alone → PublishesView (machine self.old) result (machine self.new) }
        ensures keeps { alone → Keeps (machine self.old) (machine self.new) }
        ensures told { TellsOk event.PublishView result (tally self.old) (tally self.new) }
        ensures book { book self.new ≡ book self.old };

    /// Ends the recovery of a standby that was opened, and publishes the commits of its log.
    fn ready<R: Wait>(&mut self, rt: &R) -> Result<(), Fault>
        ensures readies { alone → Readies (machine self.old) result (machine self.new) }
        ensures keeps { alone → Keeps (machine self.old) (machine self.new) }
        ensures told { TellsOk event.Ready result (tally self.old) (tally self.new) }
        ensures book { book self.new ≡ book self.old };

    /// Goes on with the history of another node, and drops the partial record.
    fn adopt(&mut self, history: History) -> Result<(), Fault>
        ensures adopts { alone → Adopts (machine self.old) history result (machine self.new) }
        ensures keeps { alone → Keeps (machine self.old) (machine self.new) }
        ensures told { TellsOk event.Adopt result (tally self.old) (tally self.new) }
        ensures book { book self.new ≡ book self.old };

    /// Seals the log at its end: from now on no piece of the primary's log is taken.
    fn seal(&mut self) -> Result<(), Fault>
        ensures seals { alone → Seals (machine self.old) result (machine self.new) }
        ensures keeps { alone → Keeps (machine self.old) (machine self.new) }
        ensures told { TellsOk event.Seal result (tally self.old) (tally self.new) }
        ensures book { book self.new ≡ book self.old };

    /// Holds the next record of the sealed log's tail, and answers its LSN.
    fn undo_one(&mut self) -> Result<Lsn, Fault>
        ensures undoes { alone → UndoesOneOf (machine self.old) result (machine self.new) }
        ensures keeps { alone → Keeps (machine self.old) (machine self.new) }
        ensures told { TellsOk event.UndoOne result (tally self.old) (tally self.new) }
        ensures book { book self.new ≡ book self.old };

    /// Commits or rolls back a transaction in doubt, and answers the LSN of the record.
    fn resolve(&mut self, trans: TransId, verdict: Decision) -> Result<Lsn, Fault>
        ensures resolves { alone → ResolvesOf (machine self.old) trans verdict result
            (machine self.new) }
        ensures keeps { alone → Keeps (machine self.old) (machine self.new) }
        ensures told { TellsOk event.Resolve result (tally self.old) (tally self.new) }
        ensures book { book self.new ≡ book self.old };

    /// Ends the takeover.
    fn finish(&mut self) -> Result<(), Fault>
        ensures finishes { alone → Finishes (machine self.old) result (machine self.new) }
        ensures keeps { alone → Keeps (machine self.old) (machine self.new) }
        ensures told { TellsOk event.Finish result (tally self.old) (tally self.new) }
        ensures book { book self.new ≡ book self.old };

    // ---- the queries

    /// What it tells of itself. Log texts have less than 2^64 bytes, those of the partial record
    /// too.
    fn status(&self) -> Status
        ensures fits { result.end.0 + result.partial < 2 ^ 64 }
        ensures tells { alone → Tells (machine self.now) result }
        // What always holds between two events: of the log, of what readers were told, and of a
        // takeover.
        ensures stands { alone → Stands (machine self.now) };

    /// The node's history: the seals of all takeovers before it, its own one too.
    fn history(&self) -> History
        ensures history { alone → result ≡ history_of (machine self.now).held }
        // A crash leaves a front of it, and a log that ends at or below its next seal.
        ensures grown { alone → IsGrown (machine self.now) };

    /// The transaction table of the held log, in rising TransID. Only want of memory for the copy
    /// is refused.
    fn table(&self, alloc: Global) -> Result<Vec<TransactionRow>, Fault>
        ensures rows { IfOk result (λ rows. alone
            → rows.items ≡ table_of (machine self.now).held.log) }
        ensures fails { IfErr result (λ f. f ≡ fault.Memory) };

    /// The database's page count.
    fn pages(&self) -> u32
        ensures pages { alone → result ≡ (machine self.now).held.pages };

    /// The dirty page table: the first row of a page from there on.
    fn dirty(&self, from: u32) -> Option<LoggedPage>
        ensures row { alone → IsNextRow (machine self.now).held.pool.dirty from result };

    /// The first page from there on with pending changes.
    fn next_pending(&self, from: u32) -> Option<u32>
        ensures first { alone → WaitsFirst (machine self.now).held.pool.waits from result };

    /// The whole list of published commits, for any of its readers.
    fn tell(&self) -> Told
        ensures tells { alone → TellsReaders (machine self.now) result }
        ensures book { book_told result ≡ book self.now };

    /// The page as it is now, which may have to be read from its block.
    fn page_now(&mut self, page: u32) -> Result<Page, Fault>
        requires { alone → page < (machine self.old).held.pages }
        ensures shows { alone → ShowsPage (machine self.old) page result (machine self.new) }
        ensures keeps { alone → Keeps (machine self.old) (machine self.new) }
        ensures told { tally self.new ≡ tally self.old }
        ensures book { book self.new ≡ book self.old };

    /// The held record at an LSN, which may have to be read from the log device.
    fn record_at(&mut self, lsn: Lsn) -> Result<Option<Record>, Fault>
        ensures reads { alone → Reads (machine self.old) lsn result (machine self.new) }
        ensures keeps { alone → Keeps (machine self.old) (machine self.new) }
        ensures told { tally self.new ≡ tally self.old }
        ensures book { book self.new ≡ book self.old };
}
