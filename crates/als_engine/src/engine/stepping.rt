ghost use Rattle.std.specs.Prelude.{◌≡◌, ◌≤◌, ◌+◌};
ghost use Rattle.als_engine.specs.Machine.{Keeps};
ghost use Rattle.als_engine.specs.Runs.{Steps, reply_of};

use super::Engine;
use crate::fault::Fault;
use crate::step::{Reply, Step};
use als_disk::BlockDisk;
use std::sync::Wait;

impl<D: BlockDisk> Engine<D> {
    /// One step of the small machine.
    pub fn step<R: Wait>(&mut self, rt: &R, step: &Step) -> Reply
        ensures steps { Steps self.old.machine step.now result self.new.machine }
        // what is acknowledged stays so, and the log only grows
        ensures keeps { Keeps self.old.machine self.new.machine }
        // its readers stay those of this engine
        ensures book { self.new.book ≡ self.old.book }
        // one write or sync of a device at most
        ensures attempts { self.new.machine.held.attempts ≤ self.old.machine.held.attempts + 1 }
    {
        // For the prover alone: what always holds of the engine.
        let _ = &self.limit;
        match step {
            Step::Feed(piece) => match self.feed(piece) {
                Ok(fed) => Reply::Fed(fed),
                Err(refusal) => Reply::FeedRefused(refusal),
            },
            Step::Resync => done(self.resync()),
            Step::Recall(page) => done(self.recall(*page)),
            Step::Flush(page) => done(self.flush(*page)),
            Step::SyncPages => done(self.sync_pages()),
            Step::LogWrite => done(self.log_write()),
            Step::LogSync => done(self.log_sync()),
            Step::MarkWrite => done(self.mark_write()),
            Step::ControlSync => match self.ctl_sync() {
                Ok(lsn) => Reply::Acknowledged(lsn),
                Err(fault) => Reply::Refused(fault),
            },
            Step::CkptBegin => done(self.ckpt_begin()),
            Step::CkptBlock => done(self.ckpt_block()),
            Step::CkptPublish => done(self.ckpt_publish()),
            Step::PublishView => done(self.publish_view(rt)),
            Step::Ready => done(self.ready(rt)),
            Step::Adopt(history) => done(self.adopt(*history)),
            Step::Seal => done(self.seal()),
            Step::UndoOne => match self.undo_one() {
                Ok(lsn) => Reply::Undone(lsn),
                Err(fault) => Reply::Refused(fault),
            },
            Step::Finish => done(self.finish()),
            Step::Resolve(trans, verdict) => match self.resolve(*trans, *verdict) {
                Ok(lsn) => Reply::Resolved(lsn),
                Err(fault) => Reply::Refused(fault),
            },
        }
    }
}

/// The reply to an event that answers no value.
fn done(answer: Result<(), Fault>) -> Reply
    ensures { result ≡ reply_of answer }
{
    match answer {
        Ok(()) => Reply::Done,
        Err(fault) => Reply::Refused(fault),
    }
}
