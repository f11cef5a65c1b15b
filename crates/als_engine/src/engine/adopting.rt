ghost use Rattle.std.specs.Prelude.{◌≡◌, Ok, Some, IfErr, OnOk};
ghost use Rattle.als_epochs.specs.Histories.{IsHistory, RisesFrom};
ghost use Rattle.als_epochs.specs.declared.step.Step.TheVariants as judged;
ghost use Rattle.als_store.specs.Takeover.{history_of};
ghost use Rattle.als_engine.specs.declared.event.Event.TheVariants as event;
ghost use Rattle.als_engine.specs.Machine.{Keeps};
ghost use Rattle.als_engine.specs.Refusals.{first_of, judgement_on, not_adopted};
ghost use Rattle.als_engine.specs.Takeover.{Adopts};
ghost use Rattle.als_engine.specs.Tally.{TellsOk};
ghost use Rattle.als_engine.specs.Telling.{IsGrown};

use super::Engine;
use crate::event::Event;
use crate::fault::Fault;
use als_disk::BlockDisk;
use als_epochs::{History, Step as Judged, judge};
use als_store::Store;

/// Whether a store adopts an offered history: it is no other one's, goes on from the own one, and
/// the log is not past the seal with which it does.
fn looked_at<D: BlockDisk>(held: &Store<D>, offered: &History) -> Result<(), Fault>
    ensures ok { OnOk result (judgement_on held.now.stored offered.now ≡ Ok judged.Adopt) }
    ensures err { IfErr result (λ fault.
        first_of (not_adopted (judgement_on held.now.stored offered.now)) ≡ Some fault) }
{
    let own = held.history();
    match judge(&own, offered, held.end()) {
        Ok(Judged::Adopt) => Ok(()),
        Ok(Judged::Stay) => Err(Fault::NothingToDo),
        Err(fault) => Err(Fault::from(fault)),
    }
}

impl<D: BlockDisk> Engine<D> {
    /// The node's history: the seals of all takeovers before it, its own one too.
    pub fn history(&self) -> History
        ensures history { result ≡ history_of self.now.machine.held }
        ensures facts { IsHistory (history_of self.now.machine.held) }
        ensures lsns { RisesFrom 16 (history_of self.now.machine.held) }
        // A crash leaves a front of it, and a log that ends at or below its next seal.
        ensures grown { IsGrown self.now.machine }
    {
        self.store.history()
    }

    /// Goes on with the history of another node: writes the control block with it, drops the partial
    /// record, and takes the log again after a refusal. It makes one write of a device, takes no
    /// memory and no room of the log.
    ///
    /// Stopped. Recovering: it is not ready yet. Sealed: the log was sealed. OtherEpoch: the own
    /// history is not a front of the offered one. NothingToDo: it is the own one. Diverged: the log
    /// ends above the offered seal that follows the own ones. Device: the write failed, and the
    /// engine has stopped. They come in this order.
    pub fn adopt(&mut self, history: History) -> Result<(), Fault>
        ensures adopts { Adopts self.old.machine history result self.new.machine }
        ensures keeps { Keeps self.old.machine self.new.machine }
        ensures told { TellsOk event.Adopt result self.old.tally self.new.tally }
        ensures book { self.new.book ≡ self.old.book }
    {
        let answer = self.adopt_in(history);
        self.note(Event::Adopt, &answer);
        answer
    }

    /// The event itself: what it keeps follows at the public call.
    fn adopt_in(&mut self, history: History) -> Result<(), Fault>
        ensures adopts { Adopts self.old.machine history result self.new.machine }
        ensures told { self.new.tally ≡ self.old.tally }
        ensures book { self.new.book ≡ self.old.book }
    {
        if self.store.is_broken() {
            return Err(Fault::Stopped);
        }
        if self.store.is_recovering() {
            return Err(Fault::Recovering);
        }
        if !self.store.is_following() {
            return Err(Fault::Sealed);
        }
        looked_at(&self.store, &history)?;
        self.store.adopt(history)?;
        self.receiver.drop_partial();
        self.refused = None; // What is fed next is looked at.
        Ok(())
    }
}
