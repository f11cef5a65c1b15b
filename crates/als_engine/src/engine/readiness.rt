ghost use Rattle.std.specs.Prelude.{◌≡◌, ◌≤◌};
ghost use Rattle.als_engine.specs.declared.event.Event.TheVariants as event;
ghost use Rattle.als_engine.specs.Machine.{Keeps};
ghost use Rattle.als_engine.specs.Readiness.{Readies};
ghost use Rattle.als_engine.specs.Tally.{TellsOk};

use super::Engine;
use crate::event::Event;
use crate::fault::Fault;
use als_commits::all_commits_end;
use als_disk::BlockDisk;
use als_view::shown_commits_may_be_published;
use std::sync::Wait;

impl<D: BlockDisk> Engine<D> {
    /// Ends the recovery of a standby that was opened: from then on it takes the primary's log, or
    /// goes on with its takeover, by the phase of the control block. All commits of its log are
    /// published, and readers are answered. It calls no device. It waits for readers that are still in
    /// the copy of before.
    ///
    /// Stopped. NothingToDo: the standby is not recovering. NotDrained: a change waits for redo.
    /// They come in this order. Memory: an allocation failed.
    pub fn ready<R: Wait>(&mut self, rt: &R) -> Result<(), Fault>
        ensures readies { Readies self.old.machine result self.new.machine }
        ensures keeps { Keeps self.old.machine self.new.machine }
        ensures told { TellsOk event.Ready result self.old.tally self.new.tally }
        ensures book { self.new.book ≡ self.old.book }
    {
        let answer = self.ready_in(rt);
        self.note(Event::Ready, &answer);
        answer
    }

    /// The event itself: what it keeps follows at the public call.
    fn ready_in<R: Wait>(&mut self, rt: &R) -> Result<(), Fault>
        ensures readies { Readies self.old.machine result self.new.machine }
        // What was published stays so.
        ensures grows { self.old.machine.published ≤ self.new.machine.published }
        ensures told { self.new.tally ≡ self.old.tally }
        ensures book { self.new.book ≡ self.old.book }
    {
        if self.store.is_broken() {
            return Err(Fault::Stopped);
        }
        if !self.store.is_recovering() {
            return Err(Fault::NothingToDo);
        }
        if self.store.pending() > 0 {
            return Err(Fault::NotDrained);
        }
        all_commits_end();
        // For the prover alone: what always holds of the log.
        let _ = self.store.end();
        // And what the view shows may be published.
        shown_commits_may_be_published();
        match self.shown.publish_ended(rt, self.store.acknowledged()) {
            Ok(()) => {}
            Err(_) => return Err(Fault::Memory),
        }
        self.store.ready();
        Ok(())
    }
}
