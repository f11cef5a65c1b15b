ghost use Rattle.std.specs.Prelude.{◌≡◌, ◌++◌, true, false, [], ◌∷◌, IfOk, IfErr, OnOk};
ghost use Rattle.std.specs.Option.{option_to_list};
ghost use Rattle.als_record.specs.Commits.{commits_of};
ghost use Rattle.als_record.specs.Tail.{decision};
ghost use Rattle.als_record.specs.Transactions.{is_in_doubt};
ghost use Rattle.als_store.specs.Takeover.{is_following, decision_body, NotCollected};
ghost use Rattle.als_engine.specs.declared.event.Event.TheVariants as event;
ghost use Rattle.als_engine.specs.Machine.{Keeps};
ghost use Rattle.als_engine.specs.Takeover.{ResolvesOf};
ghost use Rattle.als_engine.specs.Tally.{TellsOk};

use super::Engine;
use crate::event::Event;
use crate::fault::Fault;
use crate::holding::reserve_place;
use als_commits::Commit;
use als_disk::BlockDisk;
use als_receiver::Receiver;
use als_record::{Lsn, TransId};
use als_store::{Decision, Fault as StoreFault, Store};
use std::alloc::Global;

/// The commit that a decision makes, if it makes one: its writes are read along the undo chain.
fn decided<D: BlockDisk>(
    alloc: Global,
    held: &mut Store<D>,
    trans: TransId,
    verdict: Decision,
) -> Result<Option<Commit>, StoreFault>
    requires sealed { is_following held.old.stored ≡ false }
    requires doubt { is_in_doubt held.old.stored.log trans.0 ≡ true }
    ensures ok { IfOk result (λ found.
        commits_of (held.old.stored.log
        ++ decision held.old.stored.log trans.0 (decision_body verdict) ∷ [])
        ≡ commits_of held.old.stored.log ++ option_to_list found) }
    ensures same { OnOk result (held.new.stored ≡ held.old.stored) }
    ensures err { IfErr result (λ f. NotCollected held.old.stored f held.new.stored) }
{
    match verdict {
        Decision::Commit => {
            let commit = held.commit_decided(alloc, trans)?;
            Ok(Some(commit))
        }
        Decision::Rollback => {
            // For the prover alone: what always holds of the log.
            let _ = held.end();
            Ok(None)
        }
    }
}

impl<D: BlockDisk> Engine<D> {
    /// Commits or rolls back a transaction in doubt, as its coordinator has decided: holds its
    /// commit or rollback record, and answers the LSN of that. What then is left to append, its end
    /// or its compensations, comes by `undo_one`. The log device has room for all of it.
    ///
    /// Stopped. Recovering: it is not ready yet. NotPrimary: the takeover has not ended. NotInDoubt:
    /// the transaction is not prepared, or was decided. Device: the log device failed in a read;
    /// nothing but the count of failures has changed. Memory: an allocation failed; nothing has
    /// changed. They come in this order.
    pub fn resolve(&mut self, trans: TransId, verdict: Decision) -> Result<Lsn, Fault>
        ensures resolves { ResolvesOf self.old.machine trans verdict result self.new.machine }
        ensures keeps { Keeps self.old.machine self.new.machine }
        ensures told { TellsOk event.Resolve result self.old.tally self.new.tally }
        ensures book { self.new.book ≡ self.old.book }
    {
        let answer = self.resolve_in(trans, verdict);
        self.note(Event::Resolve, &answer);
        answer
    }

    /// The event itself: what it keeps follows at the public call. All memory is taken before the
    /// record is held.
    fn resolve_in(&mut self, trans: TransId, verdict: Decision) -> Result<Lsn, Fault>
        ensures resolves { ResolvesOf self.old.machine trans verdict result self.new.machine }
        ensures told { self.new.tally ≡ self.old.tally }
        ensures book { self.new.book ≡ self.old.book }
    {
        if self.store.is_broken() {
            return Err(Fault::Stopped);
        }
        if self.store.is_recovering() {
            return Err(Fault::Recovering);
        }
        if !self.store.is_primary() {
            return Err(Fault::NotPrimary);
        }
        if !self.store.is_in_doubt(trans) {
            return Err(Fault::NotInDoubt);
        }
        let found = decided(self.alloc, &mut self.store, trans, verdict)?;
        reserve_place(&mut self.shown, &found)?;
        let lsn = self.store.resolve(trans, verdict)?;
        self.shown.take(found);
        self.receiver = Receiver::new(self.alloc, self.store.end(), self.store.pages());
        Ok(lsn)
    }
}
