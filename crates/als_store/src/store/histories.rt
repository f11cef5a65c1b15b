ghost use Rattle.std.specs.Prelude.{◌≡◌, ◌∷◌, true, false, IfErr, OnOk, Ok, Contains};
ghost use Rattle.als_epochs.specs.Histories.{IsHistory, RisesFrom};
ghost use Rattle.als_epochs.specs.Judging.{judged};
ghost use Rattle.als_epochs.specs.declared.step.Step.TheVariants.{Adopt};
ghost use Rattle.als_ckpt.specs.Control.{IsLastSeal, Continues};
ghost use Rattle.als_ckpt.specs.declared.control_state.ControlState.{ControlState as AnyState};
ghost use Rattle.als_record.specs.LogText.{end_of};
ghost use Rattle.als_store.specs.declared.fault.Fault.TheVariants as fault;
ghost use Rattle.als_store.specs.Stored.{newest};
ghost use Rattle.als_store.specs.Takeover.{is_following, history_of, adopted_state};
ghost use Rattle.als_store.specs.Takeover.{WritesState, BreaksState};

use super::Store;
use crate::fault::Fault;
use als_disk::BlockDisk;
use als_epochs::{History, adopted_seals_stay_lsns, judgement_in_words};

impl<D: BlockDisk> Store<D> {
    /// The node's history: the seals of all takeovers before it, its own one too.
    pub fn history(&self) -> History
        ensures history { result ≡ history_of self.now.stored }
        ensures facts { IsHistory (history_of self.now.stored) }
        // No seal is below the LSN of a first record.
        ensures lsns { RisesFrom 16 (history_of self.now.stored) }
        // Past Following the last one is that of the log.
        ensures last { IsLastSeal (newest self.now.stored).phase (history_of self.now.stored)
            (newest self.now.stored).seal.0 }
        // It goes on from that of each control state which a crash may leave, and no seal that this
        // state lacks is below its mark.
        ensures grown { (c : AnyState) → Contains (self.now.stored.control ∷ self.now.stored.since) c
            → Continues c (newest self.now.stored) }
    {
        self.control.newest().history
    }

    /// Goes on with the history of another node, which goes on from the own one with a seal that the
    /// log is not past: writes the control block with it, by one write of the control device. It
    /// takes no memory and no room of the log.
    ///
    /// Device: the device failed, and the state may have been written or not.
    pub fn adopt(&mut self, history: History) -> Result<(), Fault>
        requires whole { self.old.stored.broken ≡ false }
        requires following { is_following self.old.stored ≡ true }
        requires judged { judged (history_of self.old.stored) history
            (end_of self.old.stored.log) ≡ Ok Adopt }
        ensures ok { OnOk result (WritesState
            (adopted_state self.old.stored history) self.old.stored self.new.stored) }
        ensures err { IfErr result (λ f. (f ≡ fault.Device)
            × BreaksState (adopted_state self.old.stored history) self.old.stored
            self.new.stored) }
    {
        // For the prover alone: what always holds of the log, the control block and a history, and
        // what a judgement means.
        let _ = self.log.end();
        let _ = self.control.newest();
        let _ = history.epoch();
        judgement_in_words();
        adopted_seals_stay_lsns();
        match self.control.write_history(history) {
            Ok(()) => Ok(()),
            Err(_) => {
                self.broken = true;
                Err(Fault::Device)
            }
        }
    }
}
