ghost use Rattle.std.specs.Prelude.{◌≡◌, ◌≤◌, ℕ, List, [], ◌∷◌, ◌++◌, length, Option, Some, IsTrue};
ghost use Rattle.als_record.specs.declared.record.Record.{Record as AnyRecord};
ghost use Rattle.als_record.specs.LogText.{end_of, IsLog};
ghost use Rattle.als_record.specs.Validity.{is_valid};
ghost use Rattle.als_epochs.specs.Histories.{next_seal};
ghost use Rattle.als_lease.specs.Lease.{Leased};
ghost use Rattle.als_engine.specs.Machine.{Machine};
ghost use Rattle.als_store.specs.Stored.{acknowledged};
ghost use Rattle.als_store.specs.Takeover.{history_of};
ghost use Rattle.als_ship.specs.Epochs.{AreEpochs};
ghost use Rattle.als_ship.specs.Follows.{HoldsFront};
ghost use Rattle.als_world.specs.Standing.{Standing, Up, Agree, Keeps, log_of, control_of};
ghost use Rattle.als_world.specs.Standing.{IsTrue as SaysTrue};
ghost use Rattle.als_deposed.specs.Answered.{HasCommit, IsAnswered, GoesOnFrom};
ghost use Rattle.als_deposed.specs.Written.{HasTakenOver, ShowsCommit};

/// A commit that was answered since a standby had acknowledged it stays: whatever becomes of that
/// standby's world, by events, crashes, restarts and a takeover, its log goes on from the commit
/// record, and the transaction is committed in it.
pub fn an_answered_commit_is_taken_over()
    ensures kept { (texts : ℕ → List ℕ) (seals : List ℕ) (pages : ℕ) (front : List AnyRecord)
        (r : AnyRecord) (told : ℕ) (standby : Machine) (leases : List (Option Leased))
        (new : Standing) → IsAnswered texts seals pages front r told standby
        → Keeps (Up standby leases) new → GoesOnFrom (log_of new) front r }
    // The same of any log that has the text below what the standby had acknowledged.
    ensures agreed { (texts : ℕ → List ℕ) (seals : List ℕ) (pages : ℕ) (front : List AnyRecord)
        (r : AnyRecord) (told : ℕ) (standby : Machine) (log : List AnyRecord)
        → IsAnswered texts seals pages front r told standby
        → Agree standby.held.log log (acknowledged standby.held) → GoesOnFrom log front r }
{}

/// Once a takeover of that standby has ended, each slot that the commit wrote has the last image
/// that the commit gave it, unless a later commit of the log or a transaction in doubt wrote it;
/// and then what these did.
pub fn a_taken_over_commit_is_shown()
    ensures { (texts : ℕ → List ℕ) (seals : List ℕ) (pages : ℕ) (front : List AnyRecord)
        (r : AnyRecord) (told : ℕ) (standby : Machine) (leases after : List (Option Leased))
        (m : Machine) → IsAnswered texts seals pages front r told standby
        → Keeps (Up standby leases) (Up m after) → SaysTrue (Up m after)
        → IsTrue (is_valid m.held.log) → HasTakenOver m → ShowsCommit m front r }
{}

/// A commit that ended at or below the seal of its epoch, which has these seals before it, stands in
/// the text of each later epoch. So each standby of a later epoch whose log reaches its end has it.
pub fn later_standbys_have_it()
    ensures { (texts : ℕ → List ℕ) (seals : List ℕ) (pages : ℕ) (front : List AnyRecord)
        (r : AnyRecord) (before : List ℕ) (seal : ℕ) (after : List ℕ) (standby : Machine)
        → AreEpochs texts seals → HasCommit pages (texts (length before)) front r
        → end_of (front ++ r ∷ []) ≤ seal → HoldsFront texts seals standby
        → history_of standby.held ≡ before ++ seal ∷ after
        → IsLog standby.held.pages standby.held.log
        → end_of (front ++ r ∷ []) ≤ end_of standby.held.log
        → GoesOnFrom standby.held.log front r }
{}

/// Two primaries can't both answer. What was answered because that standby had acknowledged it ends
/// at or below the seal by which the standby was taken over, where the text of the next epoch parts
/// from that of the deposed primary.
pub fn an_answered_commit_is_below_the_seal()
    ensures { (texts : ℕ → List ℕ) (seals : List ℕ) (pages : ℕ) (front : List AnyRecord)
        (r : AnyRecord) (told : ℕ) (standby : Machine) (leases : List (Option Leased))
        (new : Standing) (seal : ℕ) → IsAnswered texts seals pages front r told standby
        → Keeps (Up standby leases) new
        → next_seal standby.held.control.history (control_of new).history ≡ Some seal
        → end_of (front ++ r ∷ []) ≤ seal }
{}
